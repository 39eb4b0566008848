// Compares what came with what was wanted.
macro_rules! same {
    ($rt:expr; $came:expr, $wanted:expr) => {
        $crate::tests::checks::same(&$rt, stringify!($came), &$came, &$wanted)
    };
}

mod any_elements;
mod checks;
mod contents;
mod device_labels;
mod entry_calls;
mod equality;
mod errors;
mod jiff_times;
mod key_algorithms;
mod larger_types;
mod later_elements;
mod later_members;
mod lengths;
mod pieces;
mod raw_elements;
mod readme;
mod sets;
mod short_contents;
mod signed;
mod tagged_forms;
mod tags;
mod tool;
mod values;
mod whole;
