//! Laws of what clients are told. Each function does nothing: its contract is the law.

ghost use Rattle.std.specs.Prelude.{◌≡◌, [], ℕ, List};
ghost use Rattle.mg_model.specs.declared.replies.Answer.{Answer};
ghost use Rattle.mg_model.specs.History.{own_places};
ghost use Rattle.mg_model.specs.Placed.{history_in};
ghost use Rattle.mg_script.specs.declared.script.Line.{Line};
ghost use Rattle.mg_serve.specs.Answers.{AllFit};
ghost use Rattle.mg_serve.specs.Placed.{placed_of};
ghost use Rattle.mg_serve.specs.Told.{numbered, places_shown, IsTold};
ghost use Rattle.mg_wal.specs.Lists.{Basis};

/// A client is told the answers to its calls in their order, numbered 1, 2, 3.
pub const fn answers_are_told_in_order()
    ensures { (basis : Basis) (lines : List Line) (answers : List Answer) (client : ℕ) → AllFit basis [] lines answers → IsTold lines answers client }
{}

/// The places that a client is shown of a partition are those of its own calls in the partition's history, each once.
pub const fn places_shown_are_own()
    ensures { (basis : Basis) (lines : List Line) (answers : List Answer) (client part : ℕ) → AllFit basis [] lines answers
        → places_shown (numbered [] lines answers) client part ≡ own_places (history_in (placed_of lines answers) part) client }
{}
