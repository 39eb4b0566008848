//! Object identifiers in common use, by their contents. Comparing with one allocates nothing:
//! `oid.is(names::KEY_USAGE)`.
ghost use Rattle.std.specs.Prelude.{◌≡◌, [], ◌∷◌, map, option_map};
ghost use Rattle.der_types.specs.Names.{name_in, name_of};
ghost use Rattle.der_types.specs.ObjectIdentifier.{arcs_of};

// The attributes of names (RFC 5280, A.1).

/// `commonName`, 2.5.4.3.
pub const COMMON_NAME: &[u8] = &[0x55, 0x04, 0x03];

/// `surname`, 2.5.4.4.
pub const SURNAME: &[u8] = &[0x55, 0x04, 0x04];

/// `serialNumber`, 2.5.4.5.
pub const SERIAL_NUMBER: &[u8] = &[0x55, 0x04, 0x05];

/// `countryName`, 2.5.4.6.
pub const COUNTRY_NAME: &[u8] = &[0x55, 0x04, 0x06];

/// `localityName`, 2.5.4.7.
pub const LOCALITY_NAME: &[u8] = &[0x55, 0x04, 0x07];

/// `stateOrProvinceName`, 2.5.4.8.
pub const STATE_OR_PROVINCE_NAME: &[u8] = &[0x55, 0x04, 0x08];

/// `streetAddress`, 2.5.4.9.
pub const STREET_ADDRESS: &[u8] = &[0x55, 0x04, 0x09];

/// `organizationName`, 2.5.4.10.
pub const ORGANIZATION_NAME: &[u8] = &[0x55, 0x04, 0x0A];

/// `organizationalUnitName`, 2.5.4.11.
pub const ORGANIZATIONAL_UNIT_NAME: &[u8] = &[0x55, 0x04, 0x0B];

/// `title`, 2.5.4.12.
pub const TITLE: &[u8] = &[0x55, 0x04, 0x0C];

/// `name`, 2.5.4.41.
pub const NAME: &[u8] = &[0x55, 0x04, 0x29];

/// `givenName`, 2.5.4.42.
pub const GIVEN_NAME: &[u8] = &[0x55, 0x04, 0x2A];

/// `initials`, 2.5.4.43.
pub const INITIALS: &[u8] = &[0x55, 0x04, 0x2B];

/// `generationQualifier`, 2.5.4.44.
pub const GENERATION_QUALIFIER: &[u8] = &[0x55, 0x04, 0x2C];

/// `dnQualifier`, 2.5.4.46.
pub const DN_QUALIFIER: &[u8] = &[0x55, 0x04, 0x2E];

/// `pseudonym`, 2.5.4.65.
pub const PSEUDONYM: &[u8] = &[0x55, 0x04, 0x41];

/// `domainComponent`, 0.9.2342.19200300.100.1.25.
pub const DOMAIN_COMPONENT: &[u8] = &[0x09, 0x92, 0x26, 0x89, 0x93, 0xF2, 0x2C, 0x64, 0x01, 0x19];

/// `emailAddress`, 1.2.840.113549.1.9.1.
pub const EMAIL_ADDRESS: &[u8] = &[0x2A, 0x86, 0x48, 0x86, 0xF7, 0x0D, 0x01, 0x09, 0x01];

// Extensions (RFC 5280, 4.2 and 5.2).

/// `subjectKeyIdentifier`, 2.5.29.14.
pub const SUBJECT_KEY_IDENTIFIER: &[u8] = &[0x55, 0x1D, 0x0E];

/// `keyUsage`, 2.5.29.15.
pub const KEY_USAGE: &[u8] = &[0x55, 0x1D, 0x0F];

/// `subjectAltName`, 2.5.29.17.
pub const SUBJECT_ALT_NAME: &[u8] = &[0x55, 0x1D, 0x11];

/// `issuerAltName`, 2.5.29.18.
pub const ISSUER_ALT_NAME: &[u8] = &[0x55, 0x1D, 0x12];

/// `basicConstraints`, 2.5.29.19.
pub const BASIC_CONSTRAINTS: &[u8] = &[0x55, 0x1D, 0x13];

/// `cRLNumber`, 2.5.29.20.
pub const CRL_NUMBER: &[u8] = &[0x55, 0x1D, 0x14];

/// `cRLReason`, 2.5.29.21.
pub const CRL_REASON: &[u8] = &[0x55, 0x1D, 0x15];

/// `nameConstraints`, 2.5.29.30.
pub const NAME_CONSTRAINTS: &[u8] = &[0x55, 0x1D, 0x1E];

/// `cRLDistributionPoints`, 2.5.29.31.
pub const CRL_DISTRIBUTION_POINTS: &[u8] = &[0x55, 0x1D, 0x1F];

/// `certificatePolicies`, 2.5.29.32.
pub const CERTIFICATE_POLICIES: &[u8] = &[0x55, 0x1D, 0x20];

/// `anyPolicy`, 2.5.29.32.0.
pub const ANY_POLICY: &[u8] = &[0x55, 0x1D, 0x20, 0x00];

/// `policyMappings`, 2.5.29.33.
pub const POLICY_MAPPINGS: &[u8] = &[0x55, 0x1D, 0x21];

/// `authorityKeyIdentifier`, 2.5.29.35.
pub const AUTHORITY_KEY_IDENTIFIER: &[u8] = &[0x55, 0x1D, 0x23];

/// `policyConstraints`, 2.5.29.36.
pub const POLICY_CONSTRAINTS: &[u8] = &[0x55, 0x1D, 0x24];

/// `extKeyUsage`, 2.5.29.37.
pub const EXT_KEY_USAGE: &[u8] = &[0x55, 0x1D, 0x25];

/// `anyExtendedKeyUsage`, 2.5.29.37.0.
pub const ANY_EXTENDED_KEY_USAGE: &[u8] = &[0x55, 0x1D, 0x25, 0x00];

/// `freshestCRL`, 2.5.29.46.
pub const FRESHEST_CRL: &[u8] = &[0x55, 0x1D, 0x2E];

/// `inhibitAnyPolicy`, 2.5.29.54.
pub const INHIBIT_ANY_POLICY: &[u8] = &[0x55, 0x1D, 0x36];

/// `authorityInfoAccess`, 1.3.6.1.5.5.7.1.1.
pub const AUTHORITY_INFO_ACCESS: &[u8] = &[0x2B, 0x06, 0x01, 0x05, 0x05, 0x07, 0x01, 0x01];

/// `subjectInfoAccess`, 1.3.6.1.5.5.7.1.11.
pub const SUBJECT_INFO_ACCESS: &[u8] = &[0x2B, 0x06, 0x01, 0x05, 0x05, 0x07, 0x01, 0x0B];

// Purposes of keys, and how to reach an authority (RFC 5280, 4.2.1.12 and 4.2.2).

/// `serverAuth`, 1.3.6.1.5.5.7.3.1.
pub const SERVER_AUTH: &[u8] = &[0x2B, 0x06, 0x01, 0x05, 0x05, 0x07, 0x03, 0x01];

/// `clientAuth`, 1.3.6.1.5.5.7.3.2.
pub const CLIENT_AUTH: &[u8] = &[0x2B, 0x06, 0x01, 0x05, 0x05, 0x07, 0x03, 0x02];

/// `codeSigning`, 1.3.6.1.5.5.7.3.3.
pub const CODE_SIGNING: &[u8] = &[0x2B, 0x06, 0x01, 0x05, 0x05, 0x07, 0x03, 0x03];

/// `emailProtection`, 1.3.6.1.5.5.7.3.4.
pub const EMAIL_PROTECTION: &[u8] = &[0x2B, 0x06, 0x01, 0x05, 0x05, 0x07, 0x03, 0x04];

/// `timeStamping`, 1.3.6.1.5.5.7.3.8.
pub const TIME_STAMPING: &[u8] = &[0x2B, 0x06, 0x01, 0x05, 0x05, 0x07, 0x03, 0x08];

/// `OCSPSigning`, 1.3.6.1.5.5.7.3.9.
pub const OCSP_SIGNING: &[u8] = &[0x2B, 0x06, 0x01, 0x05, 0x05, 0x07, 0x03, 0x09];

/// `ocsp`, 1.3.6.1.5.5.7.48.1.
pub const OCSP: &[u8] = &[0x2B, 0x06, 0x01, 0x05, 0x05, 0x07, 0x30, 0x01];

/// `caIssuers`, 1.3.6.1.5.5.7.48.2.
pub const CA_ISSUERS: &[u8] = &[0x2B, 0x06, 0x01, 0x05, 0x05, 0x07, 0x30, 0x02];

// RSA (PKCS #1).

/// `rsaEncryption`, 1.2.840.113549.1.1.1.
pub const RSA_ENCRYPTION: &[u8] = &[0x2A, 0x86, 0x48, 0x86, 0xF7, 0x0D, 0x01, 0x01, 0x01];

/// `sha1WithRSAEncryption`, 1.2.840.113549.1.1.5.
pub const SHA1_WITH_RSA_ENCRYPTION: &[u8] = &[0x2A, 0x86, 0x48, 0x86, 0xF7, 0x0D, 0x01, 0x01, 0x05];

/// `mgf1`, 1.2.840.113549.1.1.8.
pub const MGF1: &[u8] = &[0x2A, 0x86, 0x48, 0x86, 0xF7, 0x0D, 0x01, 0x01, 0x08];

/// `rsassaPss`, 1.2.840.113549.1.1.10.
pub const RSASSA_PSS: &[u8] = &[0x2A, 0x86, 0x48, 0x86, 0xF7, 0x0D, 0x01, 0x01, 0x0A];

/// `sha256WithRSAEncryption`, 1.2.840.113549.1.1.11.
pub const SHA256_WITH_RSA_ENCRYPTION: &[u8] = &[
    0x2A, 0x86, 0x48, 0x86, 0xF7, 0x0D, 0x01, 0x01, 0x0B,
];

/// `sha384WithRSAEncryption`, 1.2.840.113549.1.1.12.
pub const SHA384_WITH_RSA_ENCRYPTION: &[u8] = &[
    0x2A, 0x86, 0x48, 0x86, 0xF7, 0x0D, 0x01, 0x01, 0x0C,
];

/// `sha512WithRSAEncryption`, 1.2.840.113549.1.1.13.
pub const SHA512_WITH_RSA_ENCRYPTION: &[u8] = &[
    0x2A, 0x86, 0x48, 0x86, 0xF7, 0x0D, 0x01, 0x01, 0x0D,
];

/// `sha224WithRSAEncryption`, 1.2.840.113549.1.1.14.
pub const SHA224_WITH_RSA_ENCRYPTION: &[u8] = &[
    0x2A, 0x86, 0x48, 0x86, 0xF7, 0x0D, 0x01, 0x01, 0x0E,
];

// Contents and attributes of CMS and of requests (PKCS #7, #9).

/// `data`, 1.2.840.113549.1.7.1.
pub const DATA: &[u8] = &[0x2A, 0x86, 0x48, 0x86, 0xF7, 0x0D, 0x01, 0x07, 0x01];

/// `signedData`, 1.2.840.113549.1.7.2.
pub const SIGNED_DATA: &[u8] = &[0x2A, 0x86, 0x48, 0x86, 0xF7, 0x0D, 0x01, 0x07, 0x02];

/// `envelopedData`, 1.2.840.113549.1.7.3.
pub const ENVELOPED_DATA: &[u8] = &[0x2A, 0x86, 0x48, 0x86, 0xF7, 0x0D, 0x01, 0x07, 0x03];

/// `contentType`, 1.2.840.113549.1.9.3.
pub const CONTENT_TYPE: &[u8] = &[0x2A, 0x86, 0x48, 0x86, 0xF7, 0x0D, 0x01, 0x09, 0x03];

/// `messageDigest`, 1.2.840.113549.1.9.4.
pub const MESSAGE_DIGEST: &[u8] = &[0x2A, 0x86, 0x48, 0x86, 0xF7, 0x0D, 0x01, 0x09, 0x04];

/// `signingTime`, 1.2.840.113549.1.9.5.
pub const SIGNING_TIME: &[u8] = &[0x2A, 0x86, 0x48, 0x86, 0xF7, 0x0D, 0x01, 0x09, 0x05];

/// `challengePassword`, 1.2.840.113549.1.9.7.
pub const CHALLENGE_PASSWORD: &[u8] = &[0x2A, 0x86, 0x48, 0x86, 0xF7, 0x0D, 0x01, 0x09, 0x07];

/// `extensionRequest`, 1.2.840.113549.1.9.14.
pub const EXTENSION_REQUEST: &[u8] = &[0x2A, 0x86, 0x48, 0x86, 0xF7, 0x0D, 0x01, 0x09, 0x0E];

// Elliptic curves (RFC 5480, RFC 8410).

/// `ecPublicKey`, 1.2.840.10045.2.1.
pub const EC_PUBLIC_KEY: &[u8] = &[0x2A, 0x86, 0x48, 0xCE, 0x3D, 0x02, 0x01];

/// `secp256r1`, 1.2.840.10045.3.1.7.
pub const SECP256R1: &[u8] = &[0x2A, 0x86, 0x48, 0xCE, 0x3D, 0x03, 0x01, 0x07];

/// `ecdsa-with-SHA256`, 1.2.840.10045.4.3.2.
pub const ECDSA_WITH_SHA256: &[u8] = &[0x2A, 0x86, 0x48, 0xCE, 0x3D, 0x04, 0x03, 0x02];

/// `ecdsa-with-SHA384`, 1.2.840.10045.4.3.3.
pub const ECDSA_WITH_SHA384: &[u8] = &[0x2A, 0x86, 0x48, 0xCE, 0x3D, 0x04, 0x03, 0x03];

/// `ecdsa-with-SHA512`, 1.2.840.10045.4.3.4.
pub const ECDSA_WITH_SHA512: &[u8] = &[0x2A, 0x86, 0x48, 0xCE, 0x3D, 0x04, 0x03, 0x04];

/// `secp384r1`, 1.3.132.0.34.
pub const SECP384R1: &[u8] = &[0x2B, 0x81, 0x04, 0x00, 0x22];

/// `secp521r1`, 1.3.132.0.35.
pub const SECP521R1: &[u8] = &[0x2B, 0x81, 0x04, 0x00, 0x23];

/// `X25519`, 1.3.101.110.
pub const X25519: &[u8] = &[0x2B, 0x65, 0x6E];

/// `X448`, 1.3.101.111.
pub const X448: &[u8] = &[0x2B, 0x65, 0x6F];

/// `Ed25519`, 1.3.101.112.
pub const ED25519: &[u8] = &[0x2B, 0x65, 0x70];

/// `Ed448`, 1.3.101.113.
pub const ED448: &[u8] = &[0x2B, 0x65, 0x71];

// Digests (NIST).

/// `sha1`, 1.3.14.3.2.26.
pub const SHA1: &[u8] = &[0x2B, 0x0E, 0x03, 0x02, 0x1A];

/// `sha256`, 2.16.840.1.101.3.4.2.1.
pub const SHA256: &[u8] = &[0x60, 0x86, 0x48, 0x01, 0x65, 0x03, 0x04, 0x02, 0x01];

/// `sha384`, 2.16.840.1.101.3.4.2.2.
pub const SHA384: &[u8] = &[0x60, 0x86, 0x48, 0x01, 0x65, 0x03, 0x04, 0x02, 0x02];

/// `sha512`, 2.16.840.1.101.3.4.2.3.
pub const SHA512: &[u8] = &[0x60, 0x86, 0x48, 0x01, 0x65, 0x03, 0x04, 0x02, 0x03];

/// `sha224`, 2.16.840.1.101.3.4.2.4.
pub const SHA224: &[u8] = &[0x60, 0x86, 0x48, 0x01, 0x65, 0x03, 0x04, 0x02, 0x04];

/// The arcs of the object identifiers whose contents the constants of this module are.
pub fn arcs()
    ensures common_name { arcs_of COMMON_NAME.now ≡ 2 ∷ 5 ∷ 4 ∷ 3 ∷ [] }
    ensures surname { arcs_of SURNAME.now ≡ 2 ∷ 5 ∷ 4 ∷ 4 ∷ [] }
    ensures serial_number { arcs_of SERIAL_NUMBER.now ≡ 2 ∷ 5 ∷ 4 ∷ 5 ∷ [] }
    ensures country_name { arcs_of COUNTRY_NAME.now ≡ 2 ∷ 5 ∷ 4 ∷ 6 ∷ [] }
    ensures locality_name { arcs_of LOCALITY_NAME.now ≡ 2 ∷ 5 ∷ 4 ∷ 7 ∷ [] }
    ensures state_or_province_name { arcs_of STATE_OR_PROVINCE_NAME.now ≡ 2 ∷ 5 ∷ 4 ∷ 8 ∷ [] }
    ensures street_address { arcs_of STREET_ADDRESS.now ≡ 2 ∷ 5 ∷ 4 ∷ 9 ∷ [] }
    ensures organization_name { arcs_of ORGANIZATION_NAME.now ≡ 2 ∷ 5 ∷ 4 ∷ 10 ∷ [] }
    ensures organizational_unit_name { arcs_of ORGANIZATIONAL_UNIT_NAME.now ≡ 2 ∷ 5 ∷ 4 ∷ 11 ∷ [] }
    ensures title { arcs_of TITLE.now ≡ 2 ∷ 5 ∷ 4 ∷ 12 ∷ [] }
    ensures name { arcs_of NAME.now ≡ 2 ∷ 5 ∷ 4 ∷ 41 ∷ [] }
    ensures given_name { arcs_of GIVEN_NAME.now ≡ 2 ∷ 5 ∷ 4 ∷ 42 ∷ [] }
    ensures initials { arcs_of INITIALS.now ≡ 2 ∷ 5 ∷ 4 ∷ 43 ∷ [] }
    ensures generation_qualifier { arcs_of GENERATION_QUALIFIER.now ≡ 2 ∷ 5 ∷ 4 ∷ 44 ∷ [] }
    ensures dn_qualifier { arcs_of DN_QUALIFIER.now ≡ 2 ∷ 5 ∷ 4 ∷ 46 ∷ [] }
    ensures pseudonym { arcs_of PSEUDONYM.now ≡ 2 ∷ 5 ∷ 4 ∷ 65 ∷ [] }
    ensures domain_component { arcs_of DOMAIN_COMPONENT.now ≡ 0 ∷ 9 ∷ 2342 ∷ 19200300 ∷ 100 ∷ 1 ∷ 25 ∷ [] }
    ensures email_address { arcs_of EMAIL_ADDRESS.now ≡ 1 ∷ 2 ∷ 840 ∷ 113549 ∷ 1 ∷ 9 ∷ 1 ∷ [] }
    ensures subject_key_identifier { arcs_of SUBJECT_KEY_IDENTIFIER.now ≡ 2 ∷ 5 ∷ 29 ∷ 14 ∷ [] }
    ensures key_usage { arcs_of KEY_USAGE.now ≡ 2 ∷ 5 ∷ 29 ∷ 15 ∷ [] }
    ensures subject_alt_name { arcs_of SUBJECT_ALT_NAME.now ≡ 2 ∷ 5 ∷ 29 ∷ 17 ∷ [] }
    ensures issuer_alt_name { arcs_of ISSUER_ALT_NAME.now ≡ 2 ∷ 5 ∷ 29 ∷ 18 ∷ [] }
    ensures basic_constraints { arcs_of BASIC_CONSTRAINTS.now ≡ 2 ∷ 5 ∷ 29 ∷ 19 ∷ [] }
    ensures crl_number { arcs_of CRL_NUMBER.now ≡ 2 ∷ 5 ∷ 29 ∷ 20 ∷ [] }
    ensures crl_reason { arcs_of CRL_REASON.now ≡ 2 ∷ 5 ∷ 29 ∷ 21 ∷ [] }
    ensures name_constraints { arcs_of NAME_CONSTRAINTS.now ≡ 2 ∷ 5 ∷ 29 ∷ 30 ∷ [] }
    ensures crl_distribution_points { arcs_of CRL_DISTRIBUTION_POINTS.now ≡ 2 ∷ 5 ∷ 29 ∷ 31 ∷ [] }
    ensures certificate_policies { arcs_of CERTIFICATE_POLICIES.now ≡ 2 ∷ 5 ∷ 29 ∷ 32 ∷ [] }
    ensures any_policy { arcs_of ANY_POLICY.now ≡ 2 ∷ 5 ∷ 29 ∷ 32 ∷ 0 ∷ [] }
    ensures policy_mappings { arcs_of POLICY_MAPPINGS.now ≡ 2 ∷ 5 ∷ 29 ∷ 33 ∷ [] }
    ensures authority_key_identifier { arcs_of AUTHORITY_KEY_IDENTIFIER.now ≡ 2 ∷ 5 ∷ 29 ∷ 35 ∷ [] }
    ensures policy_constraints { arcs_of POLICY_CONSTRAINTS.now ≡ 2 ∷ 5 ∷ 29 ∷ 36 ∷ [] }
    ensures ext_key_usage { arcs_of EXT_KEY_USAGE.now ≡ 2 ∷ 5 ∷ 29 ∷ 37 ∷ [] }
    ensures any_extended_key_usage { arcs_of ANY_EXTENDED_KEY_USAGE.now ≡ 2 ∷ 5 ∷ 29 ∷ 37 ∷ 0 ∷ [] }
    ensures freshest_crl { arcs_of FRESHEST_CRL.now ≡ 2 ∷ 5 ∷ 29 ∷ 46 ∷ [] }
    ensures inhibit_any_policy { arcs_of INHIBIT_ANY_POLICY.now ≡ 2 ∷ 5 ∷ 29 ∷ 54 ∷ [] }
    ensures authority_info_access { arcs_of AUTHORITY_INFO_ACCESS.now ≡ 1 ∷ 3 ∷ 6 ∷ 1 ∷ 5 ∷ 5 ∷ 7 ∷ 1 ∷ 1 ∷ [] }
    ensures subject_info_access { arcs_of SUBJECT_INFO_ACCESS.now ≡ 1 ∷ 3 ∷ 6 ∷ 1 ∷ 5 ∷ 5 ∷ 7 ∷ 1 ∷ 11 ∷ [] }
    ensures server_auth { arcs_of SERVER_AUTH.now ≡ 1 ∷ 3 ∷ 6 ∷ 1 ∷ 5 ∷ 5 ∷ 7 ∷ 3 ∷ 1 ∷ [] }
    ensures client_auth { arcs_of CLIENT_AUTH.now ≡ 1 ∷ 3 ∷ 6 ∷ 1 ∷ 5 ∷ 5 ∷ 7 ∷ 3 ∷ 2 ∷ [] }
    ensures code_signing { arcs_of CODE_SIGNING.now ≡ 1 ∷ 3 ∷ 6 ∷ 1 ∷ 5 ∷ 5 ∷ 7 ∷ 3 ∷ 3 ∷ [] }
    ensures email_protection { arcs_of EMAIL_PROTECTION.now ≡ 1 ∷ 3 ∷ 6 ∷ 1 ∷ 5 ∷ 5 ∷ 7 ∷ 3 ∷ 4 ∷ [] }
    ensures time_stamping { arcs_of TIME_STAMPING.now ≡ 1 ∷ 3 ∷ 6 ∷ 1 ∷ 5 ∷ 5 ∷ 7 ∷ 3 ∷ 8 ∷ [] }
    ensures ocsp_signing { arcs_of OCSP_SIGNING.now ≡ 1 ∷ 3 ∷ 6 ∷ 1 ∷ 5 ∷ 5 ∷ 7 ∷ 3 ∷ 9 ∷ [] }
    ensures ocsp { arcs_of OCSP.now ≡ 1 ∷ 3 ∷ 6 ∷ 1 ∷ 5 ∷ 5 ∷ 7 ∷ 48 ∷ 1 ∷ [] }
    ensures ca_issuers { arcs_of CA_ISSUERS.now ≡ 1 ∷ 3 ∷ 6 ∷ 1 ∷ 5 ∷ 5 ∷ 7 ∷ 48 ∷ 2 ∷ [] }
    ensures rsa_encryption { arcs_of RSA_ENCRYPTION.now ≡ 1 ∷ 2 ∷ 840 ∷ 113549 ∷ 1 ∷ 1 ∷ 1 ∷ [] }
    ensures sha1_with_rsa_encryption { arcs_of SHA1_WITH_RSA_ENCRYPTION.now ≡ 1 ∷ 2 ∷ 840 ∷ 113549 ∷ 1 ∷ 1 ∷ 5 ∷ [] }
    ensures mgf1 { arcs_of MGF1.now ≡ 1 ∷ 2 ∷ 840 ∷ 113549 ∷ 1 ∷ 1 ∷ 8 ∷ [] }
    ensures rsassa_pss { arcs_of RSASSA_PSS.now ≡ 1 ∷ 2 ∷ 840 ∷ 113549 ∷ 1 ∷ 1 ∷ 10 ∷ [] }
    ensures sha256_with_rsa_encryption { arcs_of SHA256_WITH_RSA_ENCRYPTION.now ≡ 1 ∷ 2 ∷ 840 ∷ 113549 ∷ 1 ∷ 1 ∷ 11
        ∷ [] }
    ensures sha384_with_rsa_encryption { arcs_of SHA384_WITH_RSA_ENCRYPTION.now ≡ 1 ∷ 2 ∷ 840 ∷ 113549 ∷ 1 ∷ 1 ∷ 12
        ∷ [] }
    ensures sha512_with_rsa_encryption { arcs_of SHA512_WITH_RSA_ENCRYPTION.now ≡ 1 ∷ 2 ∷ 840 ∷ 113549 ∷ 1 ∷ 1 ∷ 13
        ∷ [] }
    ensures sha224_with_rsa_encryption { arcs_of SHA224_WITH_RSA_ENCRYPTION.now ≡ 1 ∷ 2 ∷ 840 ∷ 113549 ∷ 1 ∷ 1 ∷ 14
        ∷ [] }
    ensures data { arcs_of DATA.now ≡ 1 ∷ 2 ∷ 840 ∷ 113549 ∷ 1 ∷ 7 ∷ 1 ∷ [] }
    ensures signed_data { arcs_of SIGNED_DATA.now ≡ 1 ∷ 2 ∷ 840 ∷ 113549 ∷ 1 ∷ 7 ∷ 2 ∷ [] }
    ensures enveloped_data { arcs_of ENVELOPED_DATA.now ≡ 1 ∷ 2 ∷ 840 ∷ 113549 ∷ 1 ∷ 7 ∷ 3 ∷ [] }
    ensures content_type { arcs_of CONTENT_TYPE.now ≡ 1 ∷ 2 ∷ 840 ∷ 113549 ∷ 1 ∷ 9 ∷ 3 ∷ [] }
    ensures message_digest { arcs_of MESSAGE_DIGEST.now ≡ 1 ∷ 2 ∷ 840 ∷ 113549 ∷ 1 ∷ 9 ∷ 4 ∷ [] }
    ensures signing_time { arcs_of SIGNING_TIME.now ≡ 1 ∷ 2 ∷ 840 ∷ 113549 ∷ 1 ∷ 9 ∷ 5 ∷ [] }
    ensures challenge_password { arcs_of CHALLENGE_PASSWORD.now ≡ 1 ∷ 2 ∷ 840 ∷ 113549 ∷ 1 ∷ 9 ∷ 7 ∷ [] }
    ensures extension_request { arcs_of EXTENSION_REQUEST.now ≡ 1 ∷ 2 ∷ 840 ∷ 113549 ∷ 1 ∷ 9 ∷ 14 ∷ [] }
    ensures ec_public_key { arcs_of EC_PUBLIC_KEY.now ≡ 1 ∷ 2 ∷ 840 ∷ 10045 ∷ 2 ∷ 1 ∷ [] }
    ensures secp256r1 { arcs_of SECP256R1.now ≡ 1 ∷ 2 ∷ 840 ∷ 10045 ∷ 3 ∷ 1 ∷ 7 ∷ [] }
    ensures ecdsa_with_sha256 { arcs_of ECDSA_WITH_SHA256.now ≡ 1 ∷ 2 ∷ 840 ∷ 10045 ∷ 4 ∷ 3 ∷ 2 ∷ [] }
    ensures ecdsa_with_sha384 { arcs_of ECDSA_WITH_SHA384.now ≡ 1 ∷ 2 ∷ 840 ∷ 10045 ∷ 4 ∷ 3 ∷ 3 ∷ [] }
    ensures ecdsa_with_sha512 { arcs_of ECDSA_WITH_SHA512.now ≡ 1 ∷ 2 ∷ 840 ∷ 10045 ∷ 4 ∷ 3 ∷ 4 ∷ [] }
    ensures secp384r1 { arcs_of SECP384R1.now ≡ 1 ∷ 3 ∷ 132 ∷ 0 ∷ 34 ∷ [] }
    ensures secp521r1 { arcs_of SECP521R1.now ≡ 1 ∷ 3 ∷ 132 ∷ 0 ∷ 35 ∷ [] }
    ensures x25519 { arcs_of X25519.now ≡ 1 ∷ 3 ∷ 101 ∷ 110 ∷ [] }
    ensures x448 { arcs_of X448.now ≡ 1 ∷ 3 ∷ 101 ∷ 111 ∷ [] }
    ensures ed25519 { arcs_of ED25519.now ≡ 1 ∷ 3 ∷ 101 ∷ 112 ∷ [] }
    ensures ed448 { arcs_of ED448.now ≡ 1 ∷ 3 ∷ 101 ∷ 113 ∷ [] }
    ensures sha1 { arcs_of SHA1.now ≡ 1 ∷ 3 ∷ 14 ∷ 3 ∷ 2 ∷ 26 ∷ [] }
    ensures sha256 { arcs_of SHA256.now ≡ 2 ∷ 16 ∷ 840 ∷ 1 ∷ 101 ∷ 3 ∷ 4 ∷ 2 ∷ 1 ∷ [] }
    ensures sha384 { arcs_of SHA384.now ≡ 2 ∷ 16 ∷ 840 ∷ 1 ∷ 101 ∷ 3 ∷ 4 ∷ 2 ∷ 2 ∷ [] }
    ensures sha512 { arcs_of SHA512.now ≡ 2 ∷ 16 ∷ 840 ∷ 1 ∷ 101 ∷ 3 ∷ 4 ∷ 2 ∷ 3 ∷ [] }
    ensures sha224 { arcs_of SHA224.now ≡ 2 ∷ 16 ∷ 840 ∷ 1 ∷ 101 ∷ 3 ∷ 4 ∷ 2 ∷ 4 ∷ [] }
{}

// Each of them with its name.
static NAMES: [(&[u8], &str); 78] = [
    (COMMON_NAME, "commonName"),
    (SURNAME, "surname"),
    (SERIAL_NUMBER, "serialNumber"),
    (COUNTRY_NAME, "countryName"),
    (LOCALITY_NAME, "localityName"),
    (STATE_OR_PROVINCE_NAME, "stateOrProvinceName"),
    (STREET_ADDRESS, "streetAddress"),
    (ORGANIZATION_NAME, "organizationName"),
    (ORGANIZATIONAL_UNIT_NAME, "organizationalUnitName"),
    (TITLE, "title"),
    (NAME, "name"),
    (GIVEN_NAME, "givenName"),
    (INITIALS, "initials"),
    (GENERATION_QUALIFIER, "generationQualifier"),
    (DN_QUALIFIER, "dnQualifier"),
    (PSEUDONYM, "pseudonym"),
    (DOMAIN_COMPONENT, "domainComponent"),
    (EMAIL_ADDRESS, "emailAddress"),
    (SUBJECT_KEY_IDENTIFIER, "subjectKeyIdentifier"),
    (KEY_USAGE, "keyUsage"),
    (SUBJECT_ALT_NAME, "subjectAltName"),
    (ISSUER_ALT_NAME, "issuerAltName"),
    (BASIC_CONSTRAINTS, "basicConstraints"),
    (CRL_NUMBER, "cRLNumber"),
    (CRL_REASON, "cRLReason"),
    (NAME_CONSTRAINTS, "nameConstraints"),
    (CRL_DISTRIBUTION_POINTS, "cRLDistributionPoints"),
    (CERTIFICATE_POLICIES, "certificatePolicies"),
    (ANY_POLICY, "anyPolicy"),
    (POLICY_MAPPINGS, "policyMappings"),
    (AUTHORITY_KEY_IDENTIFIER, "authorityKeyIdentifier"),
    (POLICY_CONSTRAINTS, "policyConstraints"),
    (EXT_KEY_USAGE, "extKeyUsage"),
    (ANY_EXTENDED_KEY_USAGE, "anyExtendedKeyUsage"),
    (FRESHEST_CRL, "freshestCRL"),
    (INHIBIT_ANY_POLICY, "inhibitAnyPolicy"),
    (AUTHORITY_INFO_ACCESS, "authorityInfoAccess"),
    (SUBJECT_INFO_ACCESS, "subjectInfoAccess"),
    (SERVER_AUTH, "serverAuth"),
    (CLIENT_AUTH, "clientAuth"),
    (CODE_SIGNING, "codeSigning"),
    (EMAIL_PROTECTION, "emailProtection"),
    (TIME_STAMPING, "timeStamping"),
    (OCSP_SIGNING, "OCSPSigning"),
    (OCSP, "ocsp"),
    (CA_ISSUERS, "caIssuers"),
    (DATA, "data"),
    (SIGNED_DATA, "signedData"),
    (ENVELOPED_DATA, "envelopedData"),
    (CONTENT_TYPE, "contentType"),
    (MESSAGE_DIGEST, "messageDigest"),
    (SIGNING_TIME, "signingTime"),
    (CHALLENGE_PASSWORD, "challengePassword"),
    (EXTENSION_REQUEST, "extensionRequest"),
    (RSA_ENCRYPTION, "rsaEncryption"),
    (SHA1_WITH_RSA_ENCRYPTION, "sha1WithRSAEncryption"),
    (MGF1, "mgf1"),
    (RSASSA_PSS, "rsassaPss"),
    (SHA256_WITH_RSA_ENCRYPTION, "sha256WithRSAEncryption"),
    (SHA384_WITH_RSA_ENCRYPTION, "sha384WithRSAEncryption"),
    (SHA512_WITH_RSA_ENCRYPTION, "sha512WithRSAEncryption"),
    (SHA224_WITH_RSA_ENCRYPTION, "sha224WithRSAEncryption"),
    (EC_PUBLIC_KEY, "ecPublicKey"),
    (SECP256R1, "secp256r1"),
    (ECDSA_WITH_SHA256, "ecdsa-with-SHA256"),
    (ECDSA_WITH_SHA384, "ecdsa-with-SHA384"),
    (ECDSA_WITH_SHA512, "ecdsa-with-SHA512"),
    (SECP384R1, "secp384r1"),
    (SECP521R1, "secp521r1"),
    (X25519, "X25519"),
    (X448, "X448"),
    (ED25519, "Ed25519"),
    (ED448, "Ed448"),
    (SHA1, "sha1"),
    (SHA256, "sha256"),
    (SHA384, "sha384"),
    (SHA512, "sha512"),
    (SHA224, "sha224"),
];

/// Returns the name of the object identifier with this content, as `commonName`, or `None` if it isn't one of the
/// constants of this module.
pub fn name_of(content: &[u8]) -> Option<&'static str>
    ensures { option_map (λ name. name.now) result ≡ name_of content.now }
{
    name_in(&NAMES, content)
}

// The name beside this content in the table, or `None`.
fn name_in<'a>(table: &[(&[u8], &'a str)], content: &[u8]) -> Option<&'a str>
    ensures { option_map (λ name. name.now) result
        ≡ name_in (map (λ entry. (entry.0.now, entry.1.now)) table.now) content.now }
{
    for (known, name) in table {
        if *known == content {
            return Some(*name);
        }
    }
    None
}
