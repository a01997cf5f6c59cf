//! What the definitions of this crate keep, each as a function that does nothing. Only that what was read is sound is one that looks at
//! something: at the numbers of the lines.

ghost use Rattle.std.specs.Prelude.{◌<◌, ◌^◌, All};
ghost use Rattle.page_data.specs.Laws.{AlikePlacesAreDeniedAlike, ClassesAreUnique, CountsAddUp, GroupsAreAlikeThroughout, GroupsAreOfAlike, GroupsCanBeTabled, HaveNumbers, IdleLinesGrantNothing, IsSoundIfRead, MostIsOfSelected, OrdersTellVerdicts, RowsHoldEachAddressOnce, SectionGroupsAreGroups, TablesAddUp};
ghost use Rattle.page_data.specs.Unique.{WhatIsFoundIsUnique};

use crate::class::Class;
use crate::opening::Opening;
use desk_impact::places_tell_scope;
use desk_policy::laws::{lines_have_directories, lines_write_their_own};
use desk_policy::{Policy, Row, Verdict};
use desk_tables::laws::tables_are_in_order;
use desk_text::Sequence;
use desk_who::{
    runs_are_unique, runs_exist, runs_pass_tests, runs_tell_values, runs_with_value_are_unique,
    verdicts_are_discrete,
};

/// There is at most one list of the most that clients may.
pub fn classes_are_unique()
    ensures { ClassesAreUnique }
{
    runs_are_unique::<Class>();
}

/// What is found of a site is found in one way.
pub fn what_is_found_is_unique()
    ensures { WhatIsFoundIsUnique }
{
    runs_are_unique::<Class>();
    runs_are_unique::<Verdict<'static>>();
    runs_with_value_are_unique::<Opening>();
}

/// The most that a client may on a file system is what the terms of the selected lines come to.
pub fn most_is_of_selected()
    ensures { MostIsOfSelected }
{
    verdicts_are_discrete();
}

/// The counts of the classes add up to the size of a range.
pub fn counts_add_up()
    ensures { CountsAddUp }
{}

/// The rows of the verdicts at a place hold every address once.
pub fn rows_hold_each_address_once()
    ensures { RowsHoldEachAddressOnce }
{}

/// Each place is in just one group, together with just the places that are granted alike.
pub fn groups_are_of_alike()
    ensures { GroupsAreOfAlike }
{}

/// A line decides nothing just if it grants something to no address.
pub fn idle_lines_grant_nothing()
    ensures { IdleLinesGrantNothing }
{}

/// Places in groups by their granted ranges are in groups of those that are granted alike.
pub fn section_groups_are_groups()
    ensures { SectionGroupsAreGroups }
{
    runs_exist::<Verdict<'static>>();
    runs_pass_tests::<Verdict<'static>>();
    runs_with_value_are_unique::<Verdict<'static>>();
    runs_tell_values::<Verdict<'static>>();
    verdicts_are_discrete();
}

/// Places of one file system that are granted alike are denied alike, too.
pub fn alike_places_are_denied_alike()
    ensures { AlikePlacesAreDeniedAlike }
{}

/// The places of each group of a file system have the same verdicts.
pub fn groups_are_alike_throughout()
    ensures { GroupsAreAlikeThroughout }
{
    runs_exist::<Verdict<'static>>();
    runs_are_unique::<Verdict<'static>>();
    runs_pass_tests::<Verdict<'static>>();
    runs_with_value_are_unique::<Verdict<'static>>();
    runs_tell_values::<Verdict<'static>>();
    verdicts_are_discrete();
}

/// The verdicts at the places of a file system are told apart by their places in a table.
pub fn orders_tell_verdicts()
    ensures { OrdersTellVerdicts }
{
    places_tell_scope();
}

/// Groups of such places can be tabled.
pub fn groups_can_be_tabled()
    ensures { GroupsCanBeTabled }
{}

/// A table has each address of a place once, in its rows or for everybody else.
pub fn tables_add_up()
    ensures { TablesAddUp }
{
    verdicts_are_discrete();
}

/// What has the table and the lines of a policy that was read from the texts of a site is sound, if that does not contradict itself. It is
/// looked at, since its lines have numbers of 32 bits.
pub fn sites_are_sound(policy: &Policy)
    ensures { IsSoundIfRead policy.now }
{
    lines_write_their_own();
    lines_have_directories();
    tables_are_in_order();
    look_at_all(policy.rows_by_filesystem());
}

/// Looks at the lines of each file system.
fn look_at_all(lists: &[Sequence<Row>])
    ensures { All HaveNumbers lists.now }
{
    for rows in lists {
        look_at(rows.as_slice());
    }
}

/// Looks at the numbers of lines.
fn look_at(rows: &[Row])
    ensures { HaveNumbers rows.now }
{
    for row in rows {
        has_bits(row.entry.line);
    }
}

/// A number of 32 bits is below 2 to the power of 32.
fn has_bits(number: u32)
    ensures { number < 2 ^ 32 }
{}
