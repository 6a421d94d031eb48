// Whether kinds and types are the same, and whether usages fit.

mod comparing;

pub use comparing::{
    is_second, same_base, same_kind, same_pattern, same_polarity, same_type, usage_fits,
};
