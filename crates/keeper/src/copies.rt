// Rows again, in memory of their own.
ghost use Rattle.std.specs.Prelude.{◌≡◌, IfOk};

use crate::{CaPart, IssuedPart, OwnPart, Part, Row, Settled};
use eac_base::{NoMemory, Octets};
use signature_provider::Key;
use std::alloc::Global;

fn copy_octets(alloc: Global, bytes: &Octets) -> Result<Octets, NoMemory>
    ensures { IfOk result (λ copy. copy ≡ bytes.now) }
{
    Octets::from_slice(alloc, bytes.as_slice())
}

/// The same key again, in memory of its own.
pub fn copy_key(alloc: Global, key: &Key) -> Result<Key, NoMemory>
    ensures { IfOk result (λ copy. copy ≡ key.now) }
{
    Ok(Key {
        algorithm: key.algorithm,
        domain: copy_octets(alloc, &key.domain)?,
        point: copy_octets(alloc, &key.point)?,
        cofactor: copy_octets(alloc, &key.cofactor)?,
    })
}

fn copy_settled(alloc: Global, settled: &Option<Settled>) -> Result<Option<Settled>, NoMemory>
    ensures { IfOk result (λ copy. copy ≡ settled.now) }
{
    match settled {
        Some(settled) => Ok(Some(settled.copy(alloc)?)),
        None => Ok(None),
    }
}

impl Settled {
    /// The same again, in memory of its own.
    pub fn copy(&self, alloc: Global) -> Result<Settled, NoMemory>
        ensures { IfOk result (λ copy. copy ≡ self.now) }
    {
        Ok(Settled {
            certificate: copy_octets(alloc, &self.certificate)?,
            issuer: self.issuer,
            template: self.template,
            from: self.from,
            until: self.until,
        })
    }
}

impl IssuedPart {
    /// The same again, in memory of its own.
    pub fn copy(&self, alloc: Global) -> Result<IssuedPart, NoMemory>
        ensures { IfOk result (λ copy. copy ≡ self.now) }
    {
        Ok(IssuedPart {
            request: copy_octets(alloc, &self.request)?,
            key: copy_key(alloc, &self.key)?,
            settled: self.settled.copy(alloc)?,
        })
    }
}

impl OwnPart {
    /// The same again, in memory of its own.
    pub fn copy(&self, alloc: Global) -> Result<OwnPart, NoMemory>
        ensures { IfOk result (λ copy. copy ≡ self.now) }
    {
        Ok(OwnPart {
            authority: self.authority,
            request: copy_octets(alloc, &self.request)?,
            key: copy_key(alloc, &self.key)?,
            settled: copy_settled(alloc, &self.settled)?,
        })
    }
}

impl CaPart {
    /// The same again, in memory of its own.
    pub fn copy(&self, alloc: Global) -> Result<CaPart, NoMemory>
        ensures { IfOk result (λ copy. copy ≡ self.now) }
    {
        Ok(CaPart {
            key: copy_key(alloc, &self.key)?,
            settled: self.settled.copy(alloc)?,
        })
    }
}

impl Part {
    /// The same again, in memory of its own.
    pub fn copy(&self, alloc: Global) -> Result<Part, NoMemory>
        ensures { IfOk result (λ copy. copy ≡ self.now) }
    {
        match self {
            Part::Register { request, day } => Ok(Part::Register {
                request: copy_octets(alloc, request)?,
                day: *day,
            }),
            Part::Issued(part) => Ok(Part::Issued(part.copy(alloc)?)),
            Part::Own(part) => Ok(Part::Own(part.copy(alloc)?)),
            Part::Ca(part) => Ok(Part::Ca(part.copy(alloc)?)),
        }
    }
}

impl Row {
    /// The same again, in memory of its own.
    pub fn copy(&self, alloc: Global) -> Result<Row, NoMemory>
        ensures { IfOk result (λ copy. copy ≡ self.now) }
    {
        Ok(Row {
            desk: self.desk,
            reference: self.reference,
            part: self.part.copy(alloc)?,
        })
    }
}
