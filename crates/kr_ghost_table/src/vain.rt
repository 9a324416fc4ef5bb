//! The rows of steps that find nothing to do.
ghost use Rattle.std.specs.Prelude.{◌≡◌, ◌≤◌, length, map, string_bytes};
ghost use Rattle.toml.specs.View.{view};
ghost use Rattle.kr_ghost_table.specs.Tables.{next_of, vain_row};
ghost use Rattle.kr_ghost_table.specs.Reading as spec;

use crate::members::has;
use kr_ghost::Vain;
use kr_protocol::{Mode, Span};
use kr_table::making::asked_at;
use toml::Value;

/// What a row requests at its two sides.
#[derive(Clone, Copy, Debug, PartialEq, Eq)]
pub struct Sides {
    pub current: Option<(Mode, Span)>,
    pub next: Option<(Mode, Span)>,
}

/// What each such row requests, and `None` where a table hasn't the row: then the step requests what a fetch does.
#[derive(Clone, Copy, Debug, PartialEq, Eq)]
pub struct VainRows {
    /// On the present key of an insert, and on the next name.
    pub insert_hit: Option<Sides>,
    /// On the next name of a delete, where its key is no name.
    pub delete_miss: Option<Option<(Mode, Span)>>,
    /// And of an update.
    pub update_miss: Option<Option<(Mode, Span)>>,
}

impl VainRows {
    /// What the row of a step requests, and `None` where the table hasn't the row.
    pub fn row(self, vain: Vain) -> Option<Option<(Mode, Span)>>
        ensures { result ≡ vain_row self vain }
    {
        match vain {
            Vain::InsertHit => Some(self.insert_hit?.current),
            Vain::DeleteMiss => self.delete_miss,
            Vain::UpdateMiss => self.update_miss,
        }
    }

    /// What an insert of a present key requests on the next name.
    pub fn insert_hit_next(self) -> Option<(Mode, Span)>
        ensures { result ≡ next_of self.insert_hit }
    {
        self.insert_hit?.next
    }
}

/// What a row requests at a side, and `None` where `rules` hasn't the row.
fn row_at(modes: &[String], rules: &Value, row: &str, side: &str) -> Option<Option<(Mode, Span)>>
    requires { length modes.now ≤ 15 }
    ensures { result ≡ spec.row_in (map string_bytes modes.now) (view rules.now) row.now side.now }
{
    if has(rules, row) {
        Some(asked_at(modes, rules, row, side))
    } else {
        None
    }
}

/// What a row requests at its sides, and `None` where `rules` hasn't the row.
fn sides_at(modes: &[String], rules: &Value, row: &str) -> Option<Sides>
    requires { length modes.now ≤ 15 }
    ensures { result ≡ spec.sides_in (map string_bytes modes.now) (view rules.now) row.now }
{
    if has(rules, row) {
        Some(Sides {
            current: asked_at(modes, rules, row, "current"),
            next: asked_at(modes, rules, row, "next"),
        })
    } else {
        None
    }
}

/// The rows of `rules`.
pub fn vain_rows_of(modes: &[String], rules: &Value) -> VainRows
    requires { length modes.now ≤ 15 }
    ensures { result ≡ spec.vain_rows_in (map string_bytes modes.now) (view rules.now) }
{
    VainRows {
        insert_hit: sides_at(modes, rules, "insert-hit"),
        delete_miss: row_at(modes, rules, "delete-miss", "next"),
        update_miss: row_at(modes, rules, "update-miss", "next"),
    }
}
