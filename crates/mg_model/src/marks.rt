//! The marks of a partition, as a rising list of places.

ghost use Rattle.std.specs.Prelude.{◌≡◌, ◌==◌, max, min, not, nat_le};
ghost use Rattle.std.specs.Option.{option_map_or};
ghost use Rattle.std.specs.List.{filter};
ghost use Rattle.mg_model.specs.Mutations.{greatest};
ghost use Rattle.mg_model.specs.State.{least};

/// The greatest mark that is at most `place`.
pub fn greatest_at_most(marks: &[u64], place: u64) -> Option<u64>
    ensures { result ≡ greatest (filter (λ mark. nat_le mark place) marks.now) }
{
    let mut found = None;
    for &mark in marks {
        if mark <= place {
            found = greater(found, mark);
        }
    }
    found
}

/// The greater of two marks, where the first may be missing.
fn greater(found: Option<u64>, mark: u64) -> Option<u64>
    ensures { result ≡ Some (option_map_or (λ k. max k mark) found mark) }
{
    Some(found.map_or(mark, |other| other.max(mark)))
}

/// The least mark.
pub fn least_of(marks: &[u64]) -> Option<u64>
    ensures { result ≡ least marks.now }
{
    let mut found = None;
    for &mark in marks {
        found = lesser(found, mark);
    }
    found
}

/// The lesser of two marks, where the first may be missing.
fn lesser(found: Option<u64>, mark: u64) -> Option<u64>
    ensures { result ≡ Some (option_map_or (λ k. min k mark) found mark) }
{
    Some(found.map_or(mark, |other| other.min(mark)))
}

/// Takes one mark away.
pub fn remove_mark(marks: &mut Vec<u64>, place: u64)
    ensures { marks.new.items ≡ filter (λ mark. not (mark == place)) marks.old.items }
{
    marks.retain(|mark| *mark != place);
}

/// Takes the marks above a place away.
pub fn cut_marks(marks: &mut Vec<u64>, place: u64)
    ensures { marks.new.items ≡ filter (λ mark. nat_le mark place) marks.old.items }
{
    marks.retain(|mark| *mark <= place);
}
