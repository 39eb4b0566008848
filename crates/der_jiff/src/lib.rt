//! Conversions between the times of `der_types` and the times of the crate `jiff`.
#![tactic(auto)]

mod times;

pub use times::{
    from_civil, from_timestamp, generalized_time_from_civil, generalized_time_to_civil, to_civil,
    to_timestamp, utc_time_from_civil, utc_time_to_civil,
};
