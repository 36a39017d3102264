//! A state that is lent.

ghost use Rattle.std.specs.Prelude.{◌≡◌};
ghost use Rattle.wot_types.specs.State.{state_of};

use crate::table::Table;
use std::marker::Model;
use wot_types::{Options, Trusts};

/// The parts of a state, lent together: keys, ownertrust, date and options.
#[derive(Drop)]
pub struct LentState<'a> {
    table: &'a Table,
    trusts: &'a Trusts,
    date: u32,
    options: &'a Options,
}

impl<'a> Model for LentState<'a> {
    ghost use Rattle.wot_types.specs.State.{State};
    ghost use Rattle.wot_types.specs.StateCode.{state_code};
    ghost use Rattle.wot_types.specs.State.{state_of};

    ghost Value = { State };

    ghost coded = { state_code };

    ghost view = { λ l. state_of l.table.now l.trusts.now l.date l.options.now };
}

impl<'a> LentState<'a> {
    pub fn of(
        table: &'a Table,
        trusts: &'a Trusts,
        date: u32,
        options: &'a Options,
    ) -> LentState<'a>
        ensures { result ≡ state_of table.now trusts.now date options.now }
    {
        LentState {
            table,
            trusts,
            date,
            options,
        }
    }

    pub fn table(&self) -> &'a Table
        ensures { result.now ≡ self.now.keys }
    {
        self.table
    }

    pub fn trusts(&self) -> &'a Trusts
        ensures { result.now ≡ self.now.trusts }
    {
        self.trusts
    }

    /// In seconds since 1970.
    pub fn date(&self) -> u32
        ensures { result ≡ self.now.date }
    {
        self.date
    }

    pub fn options(&self) -> &'a Options
        ensures { result.now ≡ self.now.options }
    {
        self.options
    }
}
