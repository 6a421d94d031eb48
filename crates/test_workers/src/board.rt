// Boards that are advanced by hand, in a caller's own loop, and by threads. Tests only.

mod again;
mod calls;
mod cases;
mod checks;
mod embedding;
mod loops;
mod programs;
mod tests;
mod threads;
