// Calls read and written.
ghost use Rattle.eac_messages.specs.Message.{CanBeCalled};

use eac_messages::{Message, read_message, write_message};
use std::alloc::Global;

/// What is done with a call.
#[derive(Clone, Copy, Debug, PartialEq, Eq)]
pub enum MessageWork {
    Read,
    Write,
}

impl MessageWork {
    pub fn named(word: &str) -> Option<MessageWork> {
        match word {
            "read" => Some(MessageWork::Read),
            "write" => Some(MessageWork::Write),
            _ => None,
        }
    }
}

// The bytes of a request, or the number of certificates.
fn content_length(message: &Message) -> usize {
    match message {
        Message::RequestCertificate { request, .. } => request.len(),
        Message::SendCertificates { certificates, .. } => certificates.len(),
        Message::GetCaCertificates { id } => id.len(),
    }
}

// The sum of what the same body holds, read so many times.
fn read(alloc: Global, body: &[u8], times: u32) -> Option<u64> {
    let mut sum: u64 = 0;
    for _ in 0..times {
        let message = read_message(alloc, body).ok()?;
        sum = sum.wrapping_add(content_length(&message) as u64);
    }
    Some(sum)
}

// The sum of the lengths of the same call, written so many times.
fn written(alloc: Global, message: &Message, times: u32) -> Option<u64>
    requires { CanBeCalled message.now }
{
    let mut sum: u64 = 0;
    for _ in 0..times {
        let text = write_message(alloc, message).ok()?;
        sum = sum.wrapping_add(text.len() as u64);
    }
    Some(sum)
}

fn rewritten(alloc: Global, body: &[u8], times: u32) -> Option<u64> {
    match read_message(alloc, body) {
        Ok(message) => written(alloc, &message, times),
        Err(_) => None,
    }
}

pub fn work_on(alloc: Global, work: MessageWork, body: &[u8], times: u32) -> Option<u64> {
    match work {
        MessageWork::Read => read(alloc, body, times),
        MessageWork::Write => rewritten(alloc, body, times),
    }
}
