//! The schemas by the names of their types.

use der_schema::Schema;
use der_schemas::{
    algorithms, attribute_certificates, auth_enveloped_data, authenticated_data, cms,
    encryption_parameters, enveloped_data, extensions, extensions_with_names, kerberos,
    kerberos_authentication, kerberos_credentials, kerberos_data, kerberos_parts, kerberos_replies,
    kerberos_requests, kerberos_safe_and_private, keys, ocsp_requests, ocsp_responses, parameters,
    pkcs12, pkcs12_contents, pkix, privileges, requests, signed_data, time_stamps, x509,
};

/// The schema of the type with this name.
pub(crate) fn schema_of(name: &str) -> Option<Schema> {
    certificates_schema(name)
}

// Certificates, names and requests. Other types go to the next family.
fn certificates_schema(name: &str) -> Option<Schema> {
    match name.as_bytes() {
        b"Certificate" => Some(x509::certificate()),
        b"CertificateList" => Some(x509::certificate_list()),
        b"KeyUsage" => Some(x509::key_usage()),
        b"SubjectPublicKeyInfo" => Some(x509::subject_public_key_info()),
        b"GeneralName" => Some(pkix::general_name()),
        b"GeneralNames" => Some(pkix::general_names()),
        b"AttributeCertificate" => Some(attribute_certificates::attribute_certificate()),
        b"CertificationRequest" => Some(requests::certification_request()),
        _ => keys_schema(name),
    }
}

// Keys, and parameters of algorithms.
fn keys_schema(name: &str) -> Option<Schema> {
    match name.as_bytes() {
        b"ECPrivateKey" => Some(keys::ec_private_key()),
        b"EncryptedPrivateKeyInfo" => Some(keys::encrypted_private_key_info()),
        b"PrivateKeyInfo" => Some(keys::private_key_info()),
        b"RSAPrivateKey" => Some(keys::rsa_private_key()),
        b"RSAPublicKey" => Some(keys::rsa_public_key()),
        b"Dss-Parms" => Some(algorithms::dss_parms()),
        b"ECDSA-Sig-Value" => Some(algorithms::ecdsa_sig_value()),
        b"EcpkParameters" => Some(algorithms::ecpk_parameters()),
        _ => messages_schema(name),
    }
}

// Messages of CMS, OCSP, RFC 3161 and PKCS #12.
fn messages_schema(name: &str) -> Option<Schema> {
    match name.as_bytes() {
        b"ContentInfo" => Some(cms::content_info()),
        b"DigestedData" => Some(cms::digested_data()),
        b"EncryptedData" => Some(cms::encrypted_data()),
        b"SignedData" => Some(signed_data::signed_data()),
        b"EnvelopedData" => Some(enveloped_data::enveloped_data()),
        b"AuthenticatedData" => Some(authenticated_data::authenticated_data()),
        b"AuthEnvelopedData" => Some(auth_enveloped_data::auth_enveloped_data()),
        b"OCSPRequest" => Some(ocsp_requests::ocsp_request()),
        b"BasicOCSPResponse" => Some(ocsp_responses::basic_ocsp_response()),
        b"OCSPResponse" => Some(ocsp_responses::ocsp_response()),
        b"TimeStampReq" => Some(time_stamps::time_stamp_req()),
        b"TimeStampResp" => Some(time_stamps::time_stamp_resp()),
        b"TSTInfo" => Some(time_stamps::tst_info()),
        b"PFX" => Some(pkcs12::pfx()),
        _ => tickets_schema(name),
    }
}

// Messages of Kerberos with tickets in them.
fn tickets_schema(name: &str) -> Option<Schema> {
    match name.as_bytes() {
        b"KRB-ERROR" => Some(kerberos::krb_error()),
        b"Ticket" => Some(kerberos::ticket()),
        b"AS-REQ" => Some(kerberos_requests::as_req()),
        b"TGS-REQ" => Some(kerberos_requests::tgs_req()),
        b"AS-REP" => Some(kerberos_replies::as_rep()),
        b"TGS-REP" => Some(kerberos_replies::tgs_rep()),
        b"AP-REP" => Some(kerberos_authentication::ap_rep()),
        b"AP-REQ" => Some(kerberos_authentication::ap_req()),
        b"Authenticator" => Some(kerberos_authentication::authenticator()),
        _ => other_kerberos_schema(name),
    }
}

// Other messages of Kerberos, and their parts.
fn other_kerberos_schema(name: &str) -> Option<Schema> {
    match name.as_bytes() {
        b"EncAPRepPart" => Some(kerberos_parts::enc_ap_rep_part()),
        b"EncASRepPart" => Some(kerberos_parts::enc_as_rep_part()),
        b"EncTGSRepPart" => Some(kerberos_parts::enc_tgs_rep_part()),
        b"EncTicketPart" => Some(kerberos_parts::enc_ticket_part()),
        b"EncKrbPrivPart" => Some(kerberos_safe_and_private::enc_krb_priv_part()),
        b"KRB-PRIV" => Some(kerberos_safe_and_private::krb_priv()),
        b"KRB-SAFE" => Some(kerberos_safe_and_private::krb_safe()),
        b"EncKrbCredPart" => Some(kerberos_credentials::enc_krb_cred_part()),
        b"KRB-CRED" => Some(kerberos_credentials::krb_cred()),
        _ => kerberos_data_schema(name),
    }
}

// What is in messages of Kerberos.
fn kerberos_data_schema(name: &str) -> Option<Schema> {
    match name.as_bytes() {
        b"AD-IF-RELEVANT" => Some(kerberos_data::ad_if_relevant()),
        b"AuthorizationData" => Some(kerberos_data::authorization_data()),
        b"ETYPE-INFO2" => Some(kerberos_data::etype_info2()),
        b"METHOD-DATA" => Some(kerberos_data::method_data()),
        b"PA-ENC-TIMESTAMP" => Some(kerberos_data::pa_enc_timestamp()),
        b"PA-ENC-TS-ENC" => Some(kerberos_data::pa_enc_ts_enc()),
        _ => extensions_schema(name),
    }
}

// Extensions without names.
fn extensions_schema(name: &str) -> Option<Schema> {
    match name.as_bytes() {
        b"BaseCRLNumber" => Some(extensions::base_crl_number()),
        b"BasicConstraints" => Some(extensions::basic_constraints()),
        b"CertificatePolicies" => Some(extensions::certificate_policies()),
        b"CRLNumber" => Some(extensions::crl_number()),
        b"CRLReason" => Some(extensions::crl_reason()),
        b"ExtKeyUsageSyntax" => Some(extensions::ext_key_usage_syntax()),
        b"InhibitAnyPolicy" => Some(extensions::inhibit_any_policy()),
        b"InvalidityDate" => Some(extensions::invalidity_date()),
        b"PolicyConstraints" => Some(extensions::policy_constraints()),
        b"PolicyMappings" => Some(extensions::policy_mappings()),
        b"SubjectKeyIdentifier" => Some(extensions::subject_key_identifier()),
        b"UserNotice" => Some(extensions::user_notice()),
        _ => extensions_with_names_schema(name),
    }
}

// Extensions with names, and attributes of certificates.
fn extensions_with_names_schema(name: &str) -> Option<Schema> {
    match name.as_bytes() {
        b"AuthorityInfoAccessSyntax" => Some(extensions_with_names::authority_info_access_syntax()),
        b"AuthorityKeyIdentifier" => Some(extensions_with_names::authority_key_identifier()),
        b"CertificateIssuer" => Some(extensions_with_names::certificate_issuer()),
        b"CRLDistributionPoints" => Some(extensions_with_names::crl_distribution_points()),
        b"FreshestCRL" => Some(extensions_with_names::freshest_crl()),
        b"IssuerAltName" => Some(extensions_with_names::issuer_alt_name()),
        b"IssuingDistributionPoint" => Some(extensions_with_names::issuing_distribution_point()),
        b"NameConstraints" => Some(extensions_with_names::name_constraints()),
        b"SubjectAltName" => Some(extensions_with_names::subject_alt_name()),
        b"SubjectInfoAccessSyntax" => Some(extensions_with_names::subject_info_access_syntax()),
        b"IetfAttrSyntax" => Some(privileges::ietf_attr_syntax()),
        b"RoleSyntax" => Some(privileges::role_syntax()),
        b"TargetInformation" => Some(privileges::target_information()),
        _ => parameters_schema(name),
    }
}

// Parameters of algorithms.
fn parameters_schema(name: &str) -> Option<Schema> {
    match name.as_bytes() {
        b"Characteristic-two" => Some(parameters::characteristic_two()),
        b"Curve" => Some(parameters::curve()),
        b"DomainParameters" => Some(parameters::domain_parameters()),
        b"Dss-Sig-Value" => Some(parameters::dss_sig_value()),
        b"ECParameters" => Some(parameters::ec_parameters()),
        b"FieldID" => Some(parameters::field_id()),
        b"Pentanomial" => Some(parameters::pentanomial()),
        b"Prime-p" => Some(parameters::prime_p()),
        b"Trinomial" => Some(parameters::trinomial()),
        _ => encryption_parameters_schema(name),
    }
}

// Parameters of encryption and of keys made of passwords.
fn encryption_parameters_schema(name: &str) -> Option<Schema> {
    match name.as_bytes() {
        b"AES-IV" => Some(encryption_parameters::aes_iv()),
        b"GCMParameters" => Some(encryption_parameters::gcm_parameters()),
        b"PBEParameter" => Some(encryption_parameters::pbe_parameter()),
        b"PBES2-params" => Some(encryption_parameters::pbes2_params()),
        b"PBKDF2-params" => Some(encryption_parameters::pbkdf2_params()),
        b"RC2-CBC-Parameter" => Some(encryption_parameters::rc2_cbc_parameter()),
        b"RSAES-OAEP-params" => Some(encryption_parameters::rsaes_oaep_params()),
        b"RSASSA-PSS-params" => Some(encryption_parameters::rsassa_pss_params()),
        b"Scrypt-params" => Some(encryption_parameters::scrypt_params()),
        _ => pkcs12_contents_schema(name),
    }
}

// What is in stores of PKCS #12.
fn pkcs12_contents_schema(name: &str) -> Option<Schema> {
    match name.as_bytes() {
        b"AuthenticatedSafe" => Some(pkcs12_contents::authenticated_safe()),
        b"CertBag" => Some(pkcs12_contents::cert_bag()),
        b"KeyBag" => Some(pkcs12_contents::key_bag()),
        b"MacData" => Some(pkcs12_contents::mac_data()),
        b"PKCS8ShroudedKeyBag" => Some(pkcs12_contents::pkcs8_shrouded_key_bag()),
        b"PKCS-12PbeParams" => Some(pkcs12_contents::pkcs12_pbe_params()),
        b"SafeBag" => Some(pkcs12_contents::safe_bag()),
        b"SafeContents" => Some(pkcs12_contents::safe_contents()),
        b"SecretBag" => Some(pkcs12_contents::secret_bag()),
        _ => None,
    }
}
