ghost use Rattle.std.specs.Prelude.{◌≡◌, ℕ, List};
ghost use Rattle.mg_block.specs.Block.{IsBlock, BreaksAt};
ghost use Rattle.mg_block.specs.declared.pair.Pair.{Pair};

/// Bytes have one reading: they are the block of one list of pairs, or they break at one place.
pub fn one_reading()
    ensures list { (bytes : List ℕ) (pairs others : List Pair) →
        IsBlock bytes pairs → IsBlock bytes others → pairs ≡ others }
    ensures place { (bytes : List ℕ) (pairs others : List Pair) (at place : ℕ) →
        BreaksAt bytes pairs at → BreaksAt bytes others place → (pairs ≡ others) × (at ≡ place) }
    ensures either { (bytes : List ℕ) (pairs others : List Pair) (at : ℕ) →
        IsBlock bytes pairs → BreaksAt bytes others at → ⊥ }
{}
