// Independent commits, with answers by hand.

mod histories;
mod pairs;

pub use histories::a_waiting_run_in_order;
pub use pairs::{pairs_change_places_or_stay, two_in_order};
