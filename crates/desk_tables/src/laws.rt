//! Laws of the tables. Each is proved as the contract of a function that does nothing: the definitions walk over a text, and
//! these say what they come to.

ghost use Rattle.desk_tables.specs.Hosts.{AddressesAreUnique};
ghost use Rattle.desk_tables.specs.Laws.{DigestsAreHexadecimal, FirstFaultIsReported, FirstOfFaultsIsReported, GoodLinesHaveRows, MountPointsReadBack, OrderKeepsMounts, RulesAscend, TableIsUnique, TablesAreInOrder};

use desk_text::laws::{printed_paths_differ, sorted_sets_are_unique, written_paths_read_back};

/// Mount points that are given have one table.
pub fn table_is_unique()
    ensures { TableIsUnique }
{
    printed_paths_differ()
}

/// A name has one list of addresses that ascend, without duplicates, and are those of some row with the name.
pub fn addresses_are_unique()
    ensures { AddressesAreUnique }
{
    sorted_sets_are_unique()
}

/// The table of a text of file systems has the mount points of its lines, each as often.
pub fn order_keeps_mounts()
    ensures { OrderKeepsMounts }
{}

/// In the table of a text of file systems the mount points are in byte order, and there are at most 256.
pub fn tables_are_in_order()
    ensures { TablesAreInOrder }
{}

/// The mount points in the table of a text of file systems read back from their printed forms.
pub fn mount_points_read_back()
    ensures { MountPointsReadBack }
{
    written_paths_read_back()
}

/// A digest is written by 64 hexadecimal digits and by nothing else, and they are its bytes' digits.
pub fn digests_are_hexadecimal()
    ensures { DigestsAreHexadecimal }
{}

/// A table that is refused reports its first faulty line, with the first rule that the line breaks.
pub fn first_fault_is_reported()
    ensures { FirstFaultIsReported }
{}

/// The fault that a refused table reports is the first of those that its text is told to have.
pub fn first_of_faults_is_reported()
    ensures { FirstOfFaultsIsReported }
{}

/// The rules of a line, and the faults of a credential, are checked in the order of their numbers.
pub fn rules_ascend()
    ensures { RulesAscend }
{}

/// A line that breaks no rule has its row.
pub fn good_lines_have_rows()
    ensures { GoodLinesHaveRows }
{}
