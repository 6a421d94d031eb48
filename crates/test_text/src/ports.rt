// Ports in memory, and over readers and writers that give and take part of what they could. Tests only.

pub mod calls;
mod writers;
