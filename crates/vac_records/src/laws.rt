//! Laws on memories that represent states. Each is the contract of a function that does nothing.

ghost use Rattle.vac_records.specs.Laws.{OneState, OneShape, SameWords, FreshState, SpreadState, ItemFound, ItemMissing, CustomerFound, CustomerMissing, BookingFound, BookingMissing, NoneLeft, SomeLeft, BlockTaken, BlockDrawn, BlockGiven, BlockWritten, ItemInserted, ItemReplaced, ItemRemoved, CustomerInserted, CustomerRemoved, BookingInserted, BookingReplaced, BookingRemoved, PoolThere, HandThere, TableThere, ListThere, BillThere};

/// States that a memory represents at most one state and has one set of tables for it, and that
/// words after the first n do not matter for a memory of n words.
pub fn one_state_for_a_memory()
    ensures one { OneState }
    ensures shape { OneShape }
    ensures words { SameWords }
{}

/// States that the words of an empty heap represent the state without entries.
pub fn empty_heaps_are_empty_states()
    ensures fresh { FreshState }
    ensures spread { SpreadState }
{}

/// States that an entry of the state has the value of the block to which its key leads, and that a
/// key that leads to no block has no entry.
pub fn entries_are_read_off_blocks()
    ensures item { ItemFound }
    ensures no_item { ItemMissing }
    ensures customer { CustomerFound }
    ensures no_customer { CustomerMissing }
    ensures booking { BookingFound }
    ensures no_booking { BookingMissing }
{}

/// States that a state without free blocks has as many entries as its capacity, and a state with a
/// block in hand has fewer.
pub fn capacity_is_a_count_of_blocks()
    ensures full { NoneLeft }
    ensures room { SomeLeft }
{}

/// States that taking a block, giving a block back, and writing a block in hand do not change the
/// state.
pub fn blocks_in_hand_are_no_entries()
    ensures taken { BlockTaken }
    ensures drawn { BlockDrawn }
    ensures given { BlockGiven }
    ensures written { BlockWritten }
{}

/// States that inserting an item into its table, writing its words and removing it from its table
/// change the state by that one item.
pub fn items_follow_their_blocks()
    ensures inserted { ItemInserted }
    ensures replaced { ItemReplaced }
    ensures removed { ItemRemoved }
{}

/// States that inserting a customer into its table, and removing a customer without bookings from
/// the table, change the state by that one customer.
pub fn customers_follow_their_blocks()
    ensures inserted { CustomerInserted }
    ensures removed { CustomerRemoved }
{}

/// States that inserting a booking into a customer's list, writing its units and sum and removing
/// it from the list change the state by that one booking.
pub fn bookings_follow_their_blocks()
    ensures inserted { BookingInserted }
    ensures replaced { BookingReplaced }
    ensures removed { BookingRemoved }
{}

/// States that a memory that represents a state meets the conditions of the calls on blocks,
/// tables and lists, and that the sums of a customer's bookings add up to the bill.
pub fn states_have_their_structures()
    ensures pool { PoolThere }
    ensures hand { HandThere }
    ensures table { TableThere }
    ensures list { ListThere }
    ensures bill { BillThere }
{}
