//! The structs and enums of `der_versions`.

use crate::traits::has_most;
use der_versions::{
    Lease1, Lease2, Lease2Additions, Lease2Additions2, Lease3, Lease3Additions, Lease3Additions2,
    Lease3Additions3, Parcel1, Parcel2, Parcel2Additions, Parcel2Additions2, Room,
};

pub(super) fn all() {
    has_most::<
        (
            Lease1,
            Lease2,
            Lease2Additions,
            Lease2Additions2,
            Lease3,
            Lease3Additions,
            Lease3Additions2,
            Lease3Additions3,
        ),
    >();
    has_most::<(Parcel1, Parcel2, Parcel2Additions, Parcel2Additions2, Room)>();
}
