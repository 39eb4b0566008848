//! Types that are written by hand.

use crate::answers::{RowBytes, read_as, read_copied};
use crate::implicit_list;
use crate::kept::Kept;
use crate::lamp::Lamp;
use crate::nested_tags::{FourTags, SixteenTags};
use crate::seen::Seen;
use der_examples::{
    AgeGroups, Change, Contact, EmailText, EncryptedData, EvenNumber, GeneralName, Gust, Host,
    Interval, Marker, Moment, Named, Noted, NumberOrFlag, Parcel, Place, Point, PrincipalName,
    PrivateKeyInfo, Report, Reservation, RiverLevels, RsaPublicKey, SerialNumber, Setting, Stay,
    Tagged, Temperature, Ticket, Track,
};
use der_tool_lib::{AlgorithmIdentifier, SubjectPublicKeyInfo, TestStruct};
use der_x509::{CertificateList, Extension, TbsCertificate, Version};
use picky_asn1_der::application_tag::ApplicationTag;
use picky_asn1_der::asn1::{
    BitStringAsn1Container, ExplicitContextTag0, ImplicitContextTag1, OctetStringAsn1Container,
};
use std::alloc::{AllocError, Global};

/// The result of a row that names one of these types. Other rows go to the next family.
pub(crate) fn answer(alloc: Global, name: &str, row: &RowBytes) -> Result<String, AllocError> {
    match name {
        "TestStruct" => read_as::<TestStruct>(alloc, row),
        "SubjectPublicKeyInfo" => read_as::<SubjectPublicKeyInfo>(alloc, row),
        "ImplicitContextTag1<AlgorithmIdentifier>" => {
            read_as::<ImplicitContextTag1<AlgorithmIdentifier>>(alloc, row)
        }
        "Host" => read_as::<Host>(alloc, row),
        "GeneralName" => read_as::<GeneralName>(alloc, row),
        "Vec<GeneralName>" => read_as::<Vec<GeneralName>>(alloc, row),
        "TbsCertificate" => read_as::<TbsCertificate>(alloc, row),
        "CertificateList" => read_as::<CertificateList>(alloc, row),
        _ => of_a_protocol(alloc, name, row),
    }
}

fn of_a_protocol(alloc: Global, name: &str, row: &RowBytes) -> Result<String, AllocError> {
    match name {
        "Extension" => read_as::<Extension>(alloc, row),
        "ImplicitContextTag1<Extension>" => read_as::<ImplicitContextTag1<Extension>>(alloc, row),
        "der_x509::AlgorithmIdentifier" => { read_as::<der_x509::AlgorithmIdentifier>(alloc, row) }
        "PrivateKeyInfo" => read_as::<PrivateKeyInfo>(alloc, row),
        "RsaPublicKey" => read_as::<RsaPublicKey>(alloc, row),
        "EncryptedData" => read_as::<EncryptedData>(alloc, row),
        "PrincipalName" => read_as::<PrincipalName>(alloc, row),
        "Ticket" => read_as::<Ticket>(alloc, row),
        "Version" => read_as::<Version>(alloc, row),
        "ImplicitContextTag1<Version>" => read_copied::<ImplicitContextTag1<Version>>(alloc, row),
        _ => example(alloc, name, row),
    }
}

// The same for types that aren't in a protocol.
fn example(alloc: Global, name: &str, row: &RowBytes) -> Result<String, AllocError> {
    match name {
        "NumberOrFlag" => read_as::<NumberOrFlag>(alloc, row),
        "Setting" => read_as::<Setting>(alloc, row),
        "Change" => read_as::<Change>(alloc, row),
        "Place" => read_as::<Place>(alloc, row),
        "Point" => read_as::<Point>(alloc, row),
        "Interval" => read_as::<Interval>(alloc, row),
        "AgeGroups" => read_as::<AgeGroups>(alloc, row),
        "Moment" => read_as::<Moment>(alloc, row),
        "Stay" => read_as::<Stay>(alloc, row),
        "Gust" => read_as::<Gust>(alloc, row),
        "Report" => read_as::<Report>(alloc, row),
        _ => later_example(alloc, name, row),
    }
}

fn later_example(alloc: Global, name: &str, row: &RowBytes) -> Result<String, AllocError> {
    match name {
        "Contact" => read_as::<Contact>(alloc, row),
        "EmailText" => read_as::<EmailText>(alloc, row),
        "EvenNumber" => read_as::<EvenNumber>(alloc, row),
        "RiverLevels" => read_as::<RiverLevels>(alloc, row),
        "SerialNumber" => read_as::<SerialNumber>(alloc, row),
        "Temperature" => read_as::<Temperature>(alloc, row),
        _ => generic_example(alloc, name, row),
    }
}

fn generic_example(alloc: Global, name: &str, row: &RowBytes) -> Result<String, AllocError> {
    match name {
        "Lamp" => read_as::<Lamp>(alloc, row),
        "Noted<u8>" => read_as::<Noted<u8>>(alloc, row),
        "OctetStringAsn1Container<Noted<u8>>" => read_as::<OctetStringAsn1Container<Noted<u8>>>(
            alloc, row,
        ),
        "BitStringAsn1Container<Noted<u8>>" => read_as::<BitStringAsn1Container<Noted<u8>>>(
            alloc, row,
        ),
        "ApplicationTag<Noted<u8>, 10>" => read_as::<ApplicationTag<Noted<u8>, 10>>(alloc, row),
        "Named<bool>" => read_as::<Named<bool>>(alloc, row),
        "ImplicitContextTag1<Named<bool>>" => read_as::<ImplicitContextTag1<Named<bool>>>(
            alloc, row,
        ),
        "ExplicitContextTag0<Named<u8>>" => read_as::<ExplicitContextTag0<Named<u8>>>(alloc, row),
        "ImplicitContextTag1<Point>" => read_as::<ImplicitContextTag1<Point>>(alloc, row),
        _ => last_example(alloc, name, row),
    }
}

fn last_example(alloc: Global, name: &str, row: &RowBytes) -> Result<String, AllocError> {
    match name {
        "Marker" => read_as::<Marker>(alloc, row),
        "Parcel" => read_as::<Parcel>(alloc, row),
        "Reservation" => read_as::<Reservation>(alloc, row),
        "Track" => read_as::<Track>(alloc, row),
        "Tagged" => read_as::<Tagged>(alloc, row),
        "Kept" => read_as::<Kept>(alloc, row),
        "Seen" => read_as::<Seen>(alloc, row),
        "ImplicitContextTag1<Seen>" => read_as::<ImplicitContextTag1<Seen>>(alloc, row),
        "FourTags" => read_as::<FourTags>(alloc, row),
        "SixteenTags" => read_as::<SixteenTags>(alloc, row),
        _ => implicit_list::answer(alloc, name, row),
    }
}
