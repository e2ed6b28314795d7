//! The encoding of a timestamp request, by the grammar of Authenticode, counted by hand.

use crate::samples::{EMPTY, timestamper};
use authenticode_signature::{TimestampRequest, TokenTimestamper};
use cms_types::TimestampRequest as RequestValue;
use std::alloc::Global;
use std::test::Fail;

/// The octets to be timestamped.
const ASKED: [u8; 2] = [0xAA, 0xBB];

/// The request for these octets.
const REQUEST: &[u8] =
    b"\x30\x1F\x06\x0A\x2B\x06\x01\x04\x01\x82\x37\x03\x02\x01\x30\x11\x06\x09\x2A\x86\x48\x86\xF7\x0D\x01\x07\x01\xA0\x04\x04\x02\xAA\xBB";

/// Whether the encoding of the request is the expected one.
fn is_asked(alloc: Global) -> bool {
    match TimestampRequest::new(alloc, &ASKED) {
        Ok(request) => {
            let written = is_written(alloc, &request);
            drop(request);
            written
        }
        Err(_) => false,
    }
}

fn is_written(alloc: Global, request: &TimestampRequest) -> bool {
    match request.to_der(alloc) {
        Ok(written) => written.as_slice() == REQUEST,
        Err(_) => false,
    }
}

/// Whether the request is read, has the octets, and is equal to its copy.
fn is_read(alloc: Global) -> bool {
    match TimestampRequest::from_der(alloc, REQUEST) {
        Ok(request) => {
            let read = request.digest() == Some(&ASKED) && has_such_a_copy(alloc, &request);
            drop(request);
            read
        }
        Err(_) => false,
    }
}

fn has_such_a_copy(alloc: Global, request: &TimestampRequest) -> bool {
    match request.try_clone(alloc) {
        Ok(copy) => copy == *request && has_its_content(copy, request),
        Err(_) => false,
    }
}

/// Whether a copy, converted there and back, has the content of the request.
fn has_its_content(copy: TimestampRequest, request: &TimestampRequest) -> bool {
    let value = RequestValue::from(copy);
    let content = TimestampRequest::from(value).into_content();
    let same = content == *request.content();
    drop(content);
    same
}

/// Whether a timestamper with this token makes the same request.
fn is_asked_by(alloc: Global, token: &[u8]) -> bool {
    match timestamper(alloc, token) {
        Some(timestamper) => asks(alloc, &timestamper),
        None => false,
    }
}

fn asks(alloc: Global, timestamper: &TokenTimestamper) -> bool {
    match timestamper.request(alloc, &ASKED) {
        Ok(written) => written.as_slice() == REQUEST,
        Err(_) => false,
    }
}

#[test]
fn requests_are_written_and_read(rt: HostRuntime) -> Result<(), Fail> {
    assert!(rt; is_asked(rt.alloc()));
    assert!(rt; is_read(rt.alloc()));
    let token = hex::decode(rt.alloc(), EMPTY)?;
    assert!(rt; is_asked_by(rt.alloc(), &token));
    Ok(())
}
