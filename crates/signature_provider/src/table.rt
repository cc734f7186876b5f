// The instrument whose signatures are rows of a table.
ghost use Rattle.std.specs.Prelude.{◌≡◌, ◌≢◌, ◌+◌, [], ◌∷◌, ◌++◌, length, Some, Err, IfOk, OnErr, IsTrue, ◌↔◌, is_err};
ghost use Rattle.std.specs.Str.{bytes_eq};
ghost use Rattle.eac_base.specs.Causes.{HasCause};
ghost use Rattle.eac_base.specs.Planned.{IsPlanned};
ghost use Rattle.signature_provider.specs.declared.provider.SignRefusal.TheVariants.{NoKey};
ghost use Rattle.signature_provider.specs.Key.{is_form};
ghost use Rattle.signature_provider.specs.Provider.{public_key, viewed_key, SaysMore, HoldsMore, KeepsHonest};
ghost use Rattle.signature_provider.specs.Provider.{MakesKey, Signs, SignCause, HeldWhere, UnheldFirst, has_failed};
ghost use Rattle.signature_provider.specs.Instruments.{numbered_point, is_among};
ghost use Rattle.signature_provider.specs.Instruments.{table_signature, is_row_of, table_says, IsCounted};

use crate::made_keys::{KeptKey, MadeKeys};
use crate::planned::begin;
use crate::table_signature::{number_in, signature_of};
use crate::{Key, KeyForm, KeyView, SignRefusal, SignatureProvider};
use eac_base::{FailPlan, Failed, NoMemory, Octets, is_same};
use std::alloc::Global;
use std::marker::Model;

/// A message that was signed, and the key.
#[derive(Debug, Drop)]
struct SignedRow {
    key: KeptKey,
    message: Octets,
}

impl Model for SignedRow {
    ghost use Rattle.std.specs.Prelude.{ℕ, List};
    ghost use Rattle.signature_provider.specs.Provider.{PublicKey};

    ghost Value = { PublicKey × List ℕ };

    ghost view = { λ r. (r.key, r.message) };
}

// Whether the whole is the two pieces.
fn is_cut(whole: &[u8], first: &[u8], second: &[u8]) -> bool
    ensures { result ≡ bytes_eq whole.now (first.now ++ second.now) }
{
    if whole.len() < first.len() {
        return false;
    }
    let (front, back) = whole.split_at(first.len());
    is_same(front, first) && is_same(back, second)
}

impl SignedRow {
    // Whether it is of this key and message.
    fn is_of(&self, key: KeyView, first: &[u8], second: &[u8]) -> bool
        ensures { result ≡ is_row_of self.now (viewed_key key.entry) (first.now ++ second.now) }
    {
        self.key.is(key) && is_cut(self.message.as_slice(), first, second)
    }
}

/// Signs by adding a row to a table: the signature is the row's number. It tells what it signed and is honest, and its
/// calls fail by a plan.
#[derive(Debug, Drop)]
pub struct TableProvider {
    keys: MadeKeys,
    rows: Vec<SignedRow>,
    plan: FailPlan,
    calls: u64,
    faults: u64,
}

impl Model for TableProvider {
    ghost use Rattle.signature_provider.specs.Instruments.{TableValue};

    ghost Value = { TableValue };

    ghost view = { λ t. record { keys = t.keys; rows = t.rows.items; plan = t.plan; calls = t.calls; faults = t.faults } };
}

impl TableProvider {
    /// No keys and no rows, and no call yet.
    pub fn new(alloc: Global, plan: FailPlan) -> TableProvider
        ensures keys { result.keys ≡ [] }
        ensures rows { result.rows ≡ [] }
        ensures plan { result.plan ≡ plan }
        ensures calls { result.calls ≡ 0 }
        ensures faults { result.faults ≡ 0 }
    {
        TableProvider {
            keys: MadeKeys::new(alloc),
            rows: Vec::new(alloc),
            plan,
            calls: 0,
            faults: 0,
        }
    }
}

// Whether the rows have this signature for key and message.
fn has_row(rows: &[SignedRow], key: KeyView, first: &[u8], second: &[u8], signature: &[u8]) -> bool
    ensures { result ≡ table_says rows.now (viewed_key key.entry) (first.now ++ second.now) signature.now }
{
    let Some(number) = number_in(signature) else {
        return false;
    };
    if number == 0 || (rows.len() as u64) < number {
        return false;
    }
    rows[(number - 1) as usize].is_of(key, first, second)
}

// Adds a row, or leaves them as they are where memory is wanting.
fn add_row(
    alloc: Global,
    rows: &mut Vec<SignedRow>,
    key: &Key,
    message: &[u8],
) -> Result<Octets, NoMemory>
    ensures made { IfOk result
        (Signs (table_says rows.new.items) (Some rows.old.items) (Some rows.new.items)
        (public_key key.now) message.now) }
    ensures signature { IfOk result (λ signature. signature ≡ table_signature (length rows.old.items + 1)) }
    ensures says { SaysMore (table_says rows.old.items) (table_says rows.new.items) }
    ensures honest { KeepsHonest (table_says rows.old.items) (Some rows.old.items)
        (table_says rows.new.items) (Some rows.new.items) }
    ensures kept { OnErr result (rows.new.items ≡ rows.old.items) }
{
    let number = rows.len() as u64 + 1;
    let signature = Octets::from_slice(alloc, &signature_of(number))?;
    let row = SignedRow {
        key: KeptKey::of(alloc, key.view())?,
        message: Octets::from_slice(alloc, message)?,
    };
    rows.push(row)?;
    Ok(signature)
}

impl SignatureProvider for TableProvider {
    ghost says = { λ t. table_says t.rows };

    ghost holds = { λ t. is_among t.keys };

    ghost signed = { λ t. Some t.rows };

    ghost faults = { λ t. t.faults };

    fn new_key(&mut self, alloc: Global, like: &KeyForm) -> Result<Key, SignRefusal>
        requires { IsTrue (is_form like.now) }
        ensures made { IfOk result (MakesKey (is_among self.old.keys) (is_among self.new.keys) like.now) }
        ensures says { SaysMore (table_says self.old.rows) (table_says self.new.rows) }
        ensures holds { HoldsMore (is_among self.old.keys) (is_among self.new.keys) }
        ensures signed { Some self.new.rows ≡ Some self.old.rows }
        ensures honest { KeepsHonest (table_says self.old.rows) (Some self.old.rows)
            (table_says self.new.rows) (Some self.new.rows) }
        ensures cause { SignCause self.old.faults self.new.faults result }
        ensures key { result ≢ Err NoKey }
        // It fails exactly where its plan says.
        ensures planned { IsTrue (has_failed result) ↔ IsPlanned self.old.plan self.old.calls }
        ensures counted { IsCounted self.old self.new (has_failed result) }
        // Its keys are numbered in the order of making.
        ensures numbered { IfOk result
            (λ key. key.point ≡ numbered_point like.now.algorithm (length self.old.keys + 1)) }
        ensures added { IfOk result (λ key. self.new.keys ≡ self.old.keys ++ public_key key ∷ []) }
        ensures kept { OnErr result (self.new.keys ≡ self.old.keys) }
        ensures rows { self.new.rows ≡ self.old.rows }
    {
        if begin(&self.plan, &mut self.calls, &mut self.faults) {
            return Err(SignRefusal::Failed);
        }
        Ok(self.keys.make(alloc, like)?)
    }

    fn sign(&mut self, alloc: Global, key: &Key, message: &[u8]) -> Result<Octets, SignRefusal>
        ensures made { IfOk result
            (Signs (table_says self.new.rows) (Some self.old.rows) (Some self.new.rows)
            (public_key key.now) message.now) }
        ensures says { SaysMore (table_says self.old.rows) (table_says self.new.rows) }
        ensures holds { HoldsMore (is_among self.old.keys) (is_among self.new.keys) }
        ensures refused { OnErr result (Some self.new.rows ≡ Some self.old.rows) }
        ensures honest { KeepsHonest (table_says self.old.rows) (Some self.old.rows)
            (table_says self.new.rows) (Some self.new.rows) }
        ensures cause { SignCause self.old.faults self.new.faults result }
        ensures key { HeldWhere (is_among self.old.keys (public_key key.now)) result }
        ensures unheld { UnheldFirst (is_among self.old.keys (public_key key.now)) result }
        // It fails exactly where its plan says.
        ensures planned { IsTrue (has_failed result) ↔ IsPlanned self.old.plan self.old.calls }
        ensures counted { IsCounted self.old self.new (has_failed result) }
        // The signature is the number of the new row.
        ensures signature { IfOk result (λ signature. signature ≡ table_signature (length self.old.rows + 1)) }
        ensures keys { self.new.keys ≡ self.old.keys }
    {
        if begin(&self.plan, &mut self.calls, &mut self.faults) {
            return Err(SignRefusal::Failed);
        }
        if !self.keys.has(key.view()) {
            return Err(SignRefusal::NoKey);
        }
        Ok(add_row(alloc, &mut self.rows, key, message)?)
    }

    fn verify(
        &mut self,
        key: KeyView,
        first: &[u8],
        second: &[u8],
        signature: &[u8],
    ) -> Result<bool, Failed>
        ensures answer { IfOk result
            (λ yes. yes ≡ table_says self.old.rows (viewed_key key.entry) (first.now ++ second.now) signature.now) }
        ensures says { table_says self.new.rows ≡ table_says self.old.rows }
        ensures holds { is_among self.new.keys ≡ is_among self.old.keys }
        ensures signed { Some self.new.rows ≡ Some self.old.rows }
        ensures cause { HasCause self.old.faults self.new.faults result }
        // It fails exactly where its plan says.
        ensures planned { IsTrue (is_err result) ↔ IsPlanned self.old.plan self.old.calls }
        ensures counted { IsCounted self.old self.new (is_err result) }
        ensures kept { (self.new.keys ≡ self.old.keys) × (self.new.rows ≡ self.old.rows) }
    {
        if begin(&self.plan, &mut self.calls, &mut self.faults) {
            return Err(Failed);
        }
        Ok(has_row(&self.rows, key, first, second, signature))
    }
}
