//! The schemas of certificates and their extensions, of names, and of messages of PKCS, OCSP, RFC 3161 and Kerberos
//! with what is in them.
#![tactic(auto)]

pub mod algorithms;
pub mod attribute_certificates;
pub mod auth_enveloped_data;
pub mod authenticated_data;
pub mod cms;
pub mod encryption_parameters;
pub mod enveloped_data;
pub mod extensions;
pub mod extensions_with_names;
pub mod kerberos;
pub mod kerberos_authentication;
pub mod kerberos_credentials;
pub mod kerberos_data;
pub mod kerberos_parts;
pub mod kerberos_replies;
pub mod kerberos_requests;
pub mod kerberos_safe_and_private;
pub mod keys;
pub mod ocsp_requests;
pub mod ocsp_responses;
pub mod parameters;
pub mod pkcs12;
pub mod pkcs12_contents;
pub mod pkix;
pub mod privileges;
pub mod requests;
pub mod signed_data;
pub mod time_stamps;
pub mod x509;
