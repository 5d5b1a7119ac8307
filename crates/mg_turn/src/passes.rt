//! A caller's pass.
ghost use Rattle.std.specs.Prelude.{◌≡◌};

use crate::rule::View;
use atomic_table::Badge;
use std::marker::Model;

/// What one caller knows of a turn. It takes no memory.
#[derive(Drop)]
pub struct Pass<E> {
    pub(crate) badge: Badge<View<E>>,
}

impl<E> Model for Pass<E> {
    ghost use Rattle.mg_turn.specs.Passes.{PassState, pass_coded};

    ghost Value = { PassState E };

    ghost coded = { pass_coded E.code };

    ghost use Rattle.mg_turn.specs.Shown.{shown, IsResting};

    ghost view = { λ p. shown p.badge.table_id p.badge.views };

    ghost invariant = { λ p. IsResting p.badge.views };
}
