// Certificates viewed in place, copied, and written.

use cvc_grammar::{read_cert, view_cert, write_cert};
use std::alloc::Global;

/// What is done with a certificate.
#[derive(Clone, Copy, Debug, PartialEq, Eq)]
pub enum CertWork {
    View,
    Read,
    Write,
}

impl CertWork {
    pub fn named(word: &str) -> Option<CertWork> {
        match word {
            "view" => Some(CertWork::View),
            "read" => Some(CertWork::Read),
            "write" => Some(CertWork::Write),
            _ => None,
        }
    }
}

// The sum of the lengths of the body that is viewed so many times.
fn viewed(bytes: &[u8], times: u32) -> Option<u64> {
    let mut sum: u64 = 0;
    for _ in 0..times {
        let Ok(view) = view_cert(bytes) else {
            return None;
        };
        sum = sum.wrapping_add(view.body.len() as u64);
    }
    Some(sum)
}

// That of the signature that is copied.
fn copied(alloc: Global, bytes: &[u8], times: u32) -> Option<u64> {
    let mut sum: u64 = 0;
    for _ in 0..times {
        let Ok(cert) = read_cert(alloc, bytes) else {
            return None;
        };
        sum = sum.wrapping_add(cert.signature.len() as u64);
    }
    Some(sum)
}

// That of the certificate that is written.
fn written(alloc: Global, bytes: &[u8], times: u32) -> Option<u64> {
    let Ok(cert) = read_cert(alloc, bytes) else {
        return None;
    };
    let mut sum: u64 = 0;
    for _ in 0..times {
        let text = write_cert(alloc, &cert).ok()?;
        sum = sum.wrapping_add(text.len() as u64);
    }
    Some(sum)
}

pub fn work_on(alloc: Global, work: CertWork, bytes: &[u8], times: u32) -> Option<u64> {
    match work {
        CertWork::View => viewed(bytes, times),
        CertWork::Read => copied(alloc, bytes, times),
        CertWork::Write => written(alloc, bytes, times),
    }
}
