// What `show` prints: a certificate's fields, or why the input is none.
ghost use Rattle.std.specs.Prelude.{◌≡◌, ◌++◌, length, codes, IfOk, OnOk, option_map};
ghost use Rattle.std.specs.Fmt.{decimal};
ghost use Rattle.cv_dates.specs.Calendar.{day_text};
ghost use Rattle.cvc_grammar.specs.Views.{seen_cert};
ghost use Rattle.eac_cli.specs.Show.{field_line, fields_text, role_word, algorithm_text, size_or_none, names_of};
ghost use Rattle.eac_cli.specs.Show.{dates_of, key_of, fields_of, place_text, refused_text, show_text};

use chat_rights::{Role, rights_text};
use cv_dates::{Day, day_text};
use cvc_grammar::{CertView, CvcRefusal, view_cert};
use eac_base::{NoMemory, Octets};
use plain_text::decimal::push_number;
use signature_provider::Algorithm;
use std::alloc::Global;

fn push_field(out: &mut Octets, name: &[u8], value: &[u8]) -> Result<(), NoMemory>
    ensures { OnOk result (out.new ≡ out.old ++ field_line (name.now, value.now)) }
{
    out.push_all(name)?;
    out.push_all(b" ")?;
    out.push_all(value)?;
    out.push_all(b"\n")
}

// The number of bytes.
fn push_size(alloc: Global, out: &mut Octets, name: &[u8], bytes: &[u8]) -> Result<(), NoMemory>
    ensures { OnOk result (out.new ≡ out.old ++ field_line (name.now, decimal (length bytes.now))) }
{
    let size = (bytes.len() as u64).to_string(alloc)?;
    push_field(out, name, size.as_bytes())
}

fn role_word(role: Role) -> &'static [u8]
    ensures { result.now ≡ role_word role }
{
    match role {
        Role::Cvca => b"cvca",
        Role::Domestic => b"domestic",
        Role::Foreign => b"foreign",
        Role::Terminal => b"terminal",
    }
}

fn push_day(out: &mut Octets, name: &[u8], day: Day) -> Result<(), NoMemory>
    ensures { OnOk result (out.new ≡ out.old ++ field_line (name.now, day_text day)) }
{
    push_field(out, name, &day_text(day))
}

fn algorithm_text(alloc: Global, algorithm: Algorithm) -> Result<Octets, NoMemory>
    ensures { IfOk result (λ text. text ≡ algorithm_text algorithm) }
{
    let mut text = Octets::new(alloc);
    push_number(alloc, &mut text, algorithm.arc as u64)?;
    text.push_all(b".")?;
    push_number(alloc, &mut text, algorithm.last as u64)?;
    Ok(text)
}

fn push_algorithm(alloc: Global, out: &mut Octets, algorithm: Algorithm) -> Result<(), NoMemory>
    ensures { OnOk result (out.new ≡ out.old ++ field_line (codes "algorithm", algorithm_text algorithm)) }
{
    let text = algorithm_text(alloc, algorithm)?;
    push_field(out, b"algorithm", text.as_slice())
}

fn push_extensions(
    alloc: Global,
    out: &mut Octets,
    extensions: Option<&[u8]>,
) -> Result<(), NoMemory>
    ensures { OnOk result (out.new ≡ out.old
        ++ field_line (codes "extensions", size_or_none (option_map (λ e. e.now) extensions.entry))) }
{
    match extensions {
        Some(bytes) => push_size(alloc, out, b"extensions", bytes),
        None => push_field(out, b"extensions", b"none"),
    }
}

// Who certifies whom, as what, with which rights.
fn push_names(out: &mut Octets, view: &CertView) -> Result<(), NoMemory>
    ensures { OnOk result (out.new ≡ out.old ++ fields_text (names_of (seen_cert view.now).body)) }
{
    let rights = rights_text(view.template.kind, view.template.rights);
    push_field(out, b"authority", view.authority.as_slice())?;
    push_field(out, b"holder", view.holder.as_slice())?;
    push_field(out, b"role", role_word(view.template.role))?;
    push_field(out, b"rights", rights.as_slice())
}

// For how long.
fn push_dates(out: &mut Octets, view: &CertView) -> Result<(), NoMemory>
    ensures { OnOk result (out.new ≡ out.old ++ fields_text (dates_of (seen_cert view.now).body)) }
{
    push_day(out, b"from", view.from)?;
    push_day(out, b"until", view.until)
}

// Which key, with the numbers of bytes.
fn push_key(alloc: Global, out: &mut Octets, view: &CertView) -> Result<(), NoMemory>
    ensures { OnOk result (out.new ≡ out.old ++ fields_text (key_of (seen_cert view.now))) }
{
    push_algorithm(alloc, out, view.key.algorithm)?;
    push_size(alloc, out, b"domain", view.key.domain)?;
    push_size(alloc, out, b"point", view.key.point)?;
    push_extensions(alloc, out, view.extensions)?;
    push_size(alloc, out, b"signature", view.signature)
}

fn cert_text(alloc: Global, view: &CertView) -> Result<Octets, NoMemory>
    ensures { IfOk result (λ text. text ≡ fields_text (fields_of (seen_cert view.now))) }
{
    let mut out = Octets::new(alloc);
    push_names(&mut out, view)?;
    push_dates(&mut out, view)?;
    push_key(alloc, &mut out, view)?;
    Ok(out)
}

fn push_place(alloc: Global, out: &mut Octets, refusal: CvcRefusal) -> Result<(), NoMemory>
    ensures { OnOk result (out.new ≡ out.old ++ place_text refusal) }
{
    match refusal {
        CvcRefusal::Object { offset, .. } => {
            out.push_all(b" at ")?;
            push_number(alloc, out, offset)
        }
        CvcRefusal::TooLong
        | CvcRefusal::Profile
        | CvcRefusal::Key
        | CvcRefusal::Reference(_)
        | CvcRefusal::Template(_)
        | CvcRefusal::Date(_)
        | CvcRefusal::Trailing => Ok(()),
    }
}

fn refused_text(alloc: Global, refusal: CvcRefusal) -> Result<Octets, NoMemory>
    ensures { IfOk result (λ text. text ≡ refused_text refusal) }
{
    let mut out = Octets::new(alloc);
    out.push_all(b"refused ")?;
    push_number(alloc, &mut out, refusal.number() as u64)?;
    push_place(alloc, &mut out, refusal)?;
    out.push_all(b"\n")?;
    Ok(out)
}

/// The text that is printed of these bytes: the certificate that they are, field by field, or its refusal.
pub fn show_text(alloc: Global, bytes: &[u8]) -> Result<Octets, NoMemory>
    ensures { IfOk result (λ text. text ≡ show_text bytes.now) }
{
    match view_cert(bytes) {
        Ok(view) => cert_text(alloc, &view),
        Err(refusal) => refused_text(alloc, refusal),
    }
}
