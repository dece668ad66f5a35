//! The items, customers and bookings of the reservation system, in blocks of eight words of a
//! transactional memory, and the state that a memory represents.
//!
//! The words of an item's block are its key, three words that link the block into its table, the
//! numbers of used, free and all units, and the price of a unit. The words of a customer's block
//! are the key, the same three words, and the head of the list of bookings. `vac_bookings` defines
//! the words of a booking's block.
#![tactic(auto)]

mod booking;
mod customer;
mod item;
mod laws;
pub mod place;
mod root;
mod word;

pub use booking::{book_more, key_of, sum_at, units_at};
pub use customer::{bill, book_at, init_customer, spot_of, unbook_at};
pub use item::{
    add_total, cancel, free_at, init_item, make_of, price_at, set_price, sub_total, total_at,
    used_at,
};
pub use laws::{
    blocks_in_hand_are_no_entries, bookings_follow_their_blocks, capacity_is_a_count_of_blocks,
    customers_follow_their_blocks, empty_heaps_are_empty_states, entries_are_read_off_blocks,
    items_follow_their_blocks, one_state_for_a_memory, states_have_their_structures,
};
pub use root::{CARS, CUSTOMERS, FLIGHTS, ROOMS, root_of};
