//! The types of attributes of names that have names of their own.
ghost use Rattle.std.specs.Prelude.{◌≡◌, ◌≢◌, All, IfSome, IfNone};
ghost use Rattle.der_read.specs.AttributeNames.{IsNameOf, content_of, identifier_of, name_of};

use der_types::{ObjectIdentifier, names};

/// A type of attributes that is printed by its name: as RFC 4514, 3 has it, or else as the standard that defines it.
#[derive(Debug, Clone, Copy)]
pub enum AttributeName {
    /// `CN`, 2.5.4.3.
    CommonName,
    /// `surname`, 2.5.4.4.
    Surname,
    /// `serialNumber`, 2.5.4.5.
    SerialNumber,
    /// `C`, 2.5.4.6.
    CountryName,
    /// `L`, 2.5.4.7.
    LocalityName,
    /// `ST`, 2.5.4.8.
    StateOrProvinceName,
    /// `STREET`, 2.5.4.9.
    StreetAddress,
    /// `O`, 2.5.4.10.
    OrganizationName,
    /// `OU`, 2.5.4.11.
    OrganizationalUnitName,
    /// `title`, 2.5.4.12.
    Title,
    /// `name`, 2.5.4.41.
    Name,
    /// `givenName`, 2.5.4.42.
    GivenName,
    /// `initials`, 2.5.4.43.
    Initials,
    /// `generationQualifier`, 2.5.4.44.
    GenerationQualifier,
    /// `dnQualifier`, 2.5.4.46.
    DnQualifier,
    /// `pseudonym`, 2.5.4.65.
    Pseudonym,
    /// `DC`, 0.9.2342.19200300.100.1.25.
    DomainComponent,
    /// `UID`, 0.9.2342.19200300.100.1.1.
    UserId,
    /// `emailAddress`, 1.2.840.113549.1.9.1.
    EmailAddress,
}

// `userId`, 0.9.2342.19200300.100.1.1.
const USER_ID: &[u8] = &[0x09, 0x92, 0x26, 0x89, 0x93, 0xF2, 0x2C, 0x64, 0x01, 0x01];

static ALL: [AttributeName; 19] = [
    AttributeName::CommonName,
    AttributeName::Surname,
    AttributeName::SerialNumber,
    AttributeName::CountryName,
    AttributeName::LocalityName,
    AttributeName::StateOrProvinceName,
    AttributeName::StreetAddress,
    AttributeName::OrganizationName,
    AttributeName::OrganizationalUnitName,
    AttributeName::Title,
    AttributeName::Name,
    AttributeName::GivenName,
    AttributeName::Initials,
    AttributeName::GenerationQualifier,
    AttributeName::DnQualifier,
    AttributeName::Pseudonym,
    AttributeName::DomainComponent,
    AttributeName::UserId,
    AttributeName::EmailAddress,
];

impl AttributeName {
    /// Returns the one with this object identifier, or `None` if none has it.
    pub fn of(identifier: &ObjectIdentifier) -> Option<AttributeName>
        ensures { IsNameOf (content_of identifier.now) result }
    {
        with_identifier(&ALL, identifier)
    }

    /// Returns the content of its object identifier.
    pub fn identifier(self) -> &'static [u8]
        ensures { result.now ≡ identifier_of self }
    {
        match self {
            AttributeName::CommonName => names::COMMON_NAME,
            AttributeName::Surname => names::SURNAME,
            AttributeName::SerialNumber => names::SERIAL_NUMBER,
            AttributeName::CountryName => names::COUNTRY_NAME,
            AttributeName::LocalityName => names::LOCALITY_NAME,
            AttributeName::StateOrProvinceName => names::STATE_OR_PROVINCE_NAME,
            AttributeName::StreetAddress => names::STREET_ADDRESS,
            AttributeName::OrganizationName => names::ORGANIZATION_NAME,
            AttributeName::OrganizationalUnitName => names::ORGANIZATIONAL_UNIT_NAME,
            AttributeName::Title => names::TITLE,
            AttributeName::Name => names::NAME,
            AttributeName::GivenName => names::GIVEN_NAME,
            AttributeName::Initials => names::INITIALS,
            AttributeName::GenerationQualifier => names::GENERATION_QUALIFIER,
            AttributeName::DnQualifier => names::DN_QUALIFIER,
            AttributeName::Pseudonym => names::PSEUDONYM,
            AttributeName::DomainComponent => names::DOMAIN_COMPONENT,
            AttributeName::UserId => USER_ID,
            AttributeName::EmailAddress => names::EMAIL_ADDRESS,
        }
    }

    /// Returns its name.
    pub fn name(self) -> &'static str
        ensures { result.now ≡ name_of self }
    {
        match self {
            AttributeName::CommonName => "CN",
            AttributeName::Surname => "surname",
            AttributeName::SerialNumber => "serialNumber",
            AttributeName::CountryName => "C",
            AttributeName::LocalityName => "L",
            AttributeName::StateOrProvinceName => "ST",
            AttributeName::StreetAddress => "STREET",
            AttributeName::OrganizationName => "O",
            AttributeName::OrganizationalUnitName => "OU",
            AttributeName::Title => "title",
            AttributeName::Name => "name",
            AttributeName::GivenName => "givenName",
            AttributeName::Initials => "initials",
            AttributeName::GenerationQualifier => "generationQualifier",
            AttributeName::DnQualifier => "dnQualifier",
            AttributeName::Pseudonym => "pseudonym",
            AttributeName::DomainComponent => "DC",
            AttributeName::UserId => "UID",
            AttributeName::EmailAddress => "emailAddress",
        }
    }
}

// The first of these with an object identifier.
fn with_identifier(names: &[AttributeName], identifier: &ObjectIdentifier) -> Option<AttributeName>
    ensures some { IfSome result (λ name. identifier_of name ≡ content_of identifier.now) }
    ensures none { IfNone result (All (λ name. identifier_of name ≢ content_of identifier.now)
        names.now) }
{
    names
        .iter()
        .copied()
        .find(|name| identifier.is(name.identifier()))
}
