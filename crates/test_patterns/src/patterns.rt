// Patterns on worked rows, with answers by hand.

mod worked;
