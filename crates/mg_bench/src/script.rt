//! Workloads over a script of `count` lines, in which 16 clients set 1,000 keys to documents of `size` bytes, from 1 byte to 1 MiB.
//! Each makes the script in memory, reads it, makes its calls, and answers how many bytes their lines have.

ghost use Rattle.std.specs.Prelude.{◌<◌, IfOk, IsOk};

use anyhow::{Context, Result, bail};
use itoa::Buffer;
use mg_io::{MemSink, MemSource};
use mg_memdisk::MemHost;
use mg_model::{Answer, Call, Plain};
use mg_run::alone;
use mg_script::{Line, put_answer, read_script};
use std::alloc::{AllocError, Global};

/// How many clients there are.
const CLIENTS: usize = 16;

/// How many keys are set.
const KEYS: u64 = 1_000;

const MOST_BYTES: usize = 1 << 20;

/// The most bytes that one read of a script gives.
const STEP: usize = 1 << 16;

/// The text of answers is emptied once it has more bytes.
const TEXT_LIMIT: usize = 16_384;

/// Makes the calls of one plain list, without a log, and writes no end line.
pub fn script_plain(alloc: Global, count: u64, size: usize) -> Result<u64> {
    let mut session = PlainSession::new(alloc);
    for line in lines_of(alloc, count, size)? {
        session.serve(alloc, &line)?;
    }
    Ok(session.bytes())
}

/// Runs the script over a host without settings.
pub fn script_logged(alloc: Global, count: u64, size: usize) -> Result<u64> {
    let script = script_of(alloc, count, size, 1)?;
    run(alloc, script, None)
}

/// Runs the script over a host with 64 partitions, where each line is for the partition after that of the line before.
pub fn script_of_64(alloc: Global, count: u64, size: usize) -> Result<u64> {
    let script = script_of(alloc, count, size, 64)?;
    let settings = Vec::from_slice(alloc, b"partitions = 64")?;
    run(alloc, script, Some(settings))
}

/// The lines of a script for one partition.
fn lines_of(alloc: Global, count: u64, size: usize) -> Result<Vec<Line>> {
    let script = script_of(alloc, count, size, 1)?;
    Ok(read_script(alloc, script.as_slice(), 1)?)
}

/// The bytes of a script whose line `n`, from 0, is for the partition `n % parts`.
fn script_of(alloc: Global, count: u64, size: usize, parts: u64) -> Result<Vec<u8>, AllocError>
    requires { 0 < parts }
{
    let doc = vec![in alloc; b'd'; size.clamp(1, MOST_BYTES)]?;
    let mut script = Vec::new(alloc);
    for n in 0..count {
        put_set(&mut script, n, n % parts, doc.as_slice())?;
    }
    Ok(script)
}

/// Appends the line `n` of a script.
fn put_set(script: &mut Vec<u8>, n: u64, part: u64, doc: &[u8]) -> Result<(), AllocError> {
    put_number(script, n % CLIENTS as u64)?;
    script.extend_from_slice(b" set ")?;
    put_number(script, part)?;
    script.extend_from_slice(b" key")?;
    put_number(script, n % KEYS)?;
    script.extend_from_slice(b" ")?;
    script.extend_from_slice(doc)?;
    script.extend_from_slice(b"\n")
}

fn put_number(script: &mut Vec<u8>, number: u64) -> Result<(), AllocError> {
    let mut buffer = Buffer::new();
    script.extend_from_slice(buffer.format(number).as_bytes())
}

/// A plain list, and the lines of what it answered.
#[derive(Drop)]
struct PlainSession {
    plain: Plain,
    /// How many calls were answered.
    places: u64,
    /// How many calls each client made.
    counts: [u64; CLIENTS],
    text: Vec<u8>,
    /// How many bytes of text were emptied.
    emptied: u64,
}

impl PlainSession {
    fn new(alloc: Global) -> PlainSession {
        PlainSession {
            plain: Plain::new(alloc),
            places: 0,
            counts: [0; CLIENTS],
            text: Vec::new(alloc),
            emptied: 0,
        }
    }

    /// Makes the call of a line, and puts the line of its answer.
    fn serve(&mut self, alloc: Global, line: &Line) -> Result<()> {
        let answer = self.answer(alloc, &line.call)?;
        let number = self.count(line.client)?;
        put_answer(line.client, number, line.part, &answer, &mut self.text)?;
        if self.text.len() > TEXT_LIMIT {
            self.emptied = self.bytes();
            self.text.clear();
        }
        Ok(())
    }

    fn answer(&mut self, alloc: Global, call: &Call) -> Result<Answer>
        ensures { IfOk result (λ answer. IsOk answer.result) }
    {
        if matches!(call, Call::Compact { .. }) || self.plain.worn(call).is_some() {
            bail!("the list may not take the call");
        }
        let reply = self.plain.apply(alloc, call)?;
        self.places = self.places.wrapping_add(1);
        Ok(Answer {
            place: Some(self.places),
            result: Ok(reply),
        })
    }

    /// Counts one call more of a client.
    fn count(&mut self, client: u8) -> Result<u64> {
        let count = self
            .counts
            .get_mut(usize::from(client))
            .context("no such client")?;
        *count = count.wrapping_add(1);
        Ok(*count)
    }

    /// How many bytes the lines have.
    fn bytes(&self) -> u64 {
        self.emptied.wrapping_add(self.text.len() as u64)
    }
}

/// Runs a script over a host with these settings, and answers how many bytes were written.
fn run(alloc: Global, script: Vec<u8>, settings: Option<Vec<u8>>) -> Result<u64> {
    let words = words(alloc)?;
    let mut host = MemHost::new(alloc, settings);
    let mut input = MemSource::new(script, STEP, Vec::new(alloc));
    let mut out = MemSink::new(alloc, Vec::new(alloc));
    let ran = alone(alloc, words.as_slice(), &mut input, &mut out, &mut host);
    if let Some(fault) = ran.fault {
        bail!("the run broke off: {fault}");
    }
    if ran.status != 0 {
        bail!("a call was answered by a fault");
    }
    Ok(out.bytes().len() as u64)
}

/// The words that `alone` takes.
fn words(alloc: Global) -> Result<Vec<String>, AllocError> {
    let folder = String::from_str(alloc, "store")?;
    let command = String::from_str(alloc, "alone")?;
    let mut words = Vec::new(alloc);
    words.push(folder)?;
    words.push(command)?;
    Ok(words)
}
