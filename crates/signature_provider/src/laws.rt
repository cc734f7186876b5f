// What the instruments are, whatever they did. Each law is the contract of a function that does nothing.
ghost use Rattle.std.specs.Prelude.{◌≡◌, [], Some, None};
ghost use Rattle.signature_provider.specs.Provider.{IsHonest};

use crate::{DigestProvider, SignatureProvider, TableProvider};

/// A table provider tells what it signed, and calls good only what it signed.
pub fn table_is_honest(provider: &TableProvider)
    ensures { IsHonest (⟦<TableProvider as SignatureProvider>⟧.says provider.now)
        (⟦<TableProvider as SignatureProvider>⟧.signed provider.now) }
{}

/// A digest provider doesn't tell what it signed, and counts no fault.
pub fn digest_tells_nothing(provider: &DigestProvider)
    ensures signed { ⟦<DigestProvider as SignatureProvider>⟧.signed provider.now ≡ None }
    ensures faults { ⟦<DigestProvider as SignatureProvider>⟧.faults provider.now ≡ 0 }
{}
