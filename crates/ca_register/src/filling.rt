//! Issuing the certificates of a register's lines, in order.

ghost use Rattle.std.specs.Prelude.{◌≡◌, ◌≢◌, ◌<◌, ◌≤◌, ◌+◌, ℕ, IfErr, IfOk, MatchResult, None, Some, length, map, take};
ghost use Rattle.std.specs.List.{AllByRecursion, slice_get};
ghost use Rattle.key_core.specs.PrivatePkcs1.{IsPrivatePkcs1};
ghost use Rattle.name_types.specs.Name.{name};
ghost use Rattle.names_core.specs.Names.{sets_of};
ghost use Rattle.ca_register.specs.Owned.{line_held};
ghost use Rattle.ca_register.specs.Lines.{IsLine, Line};
ghost use Rattle.ca_register.specs.Filling.{IsFilled, IsKeyAt};
ghost use Rattle.ca_register.specs.LineCertificates.{common_name};
ghost use Rattle.ca_register.specs.LineEntries.{IsFirstRefused, grant_of};
ghost use Rattle.ca_register.specs.declared.error.IssueError.TheVariants as errors;

use crate::entry::Grant;
use crate::error::IssueError;
use crate::keys::{key_or_memory, private_key_of, public_key_of};
use crate::register::Register;
use crate::text::RegisterLine;
use names_core::DirectoryName;
use sig_core::DemoScheme;
use std::alloc::{AllocError, Global};

/// A register of the certificates of all lines, or why the first that isn't issued is refused. Only
/// the lines decide, and out of memory.
pub(crate) fn register_of(
    alloc: Global,
    lines: &[RegisterLine],
) -> Result<Register<DemoScheme>, IssueError>
    requires few { length lines.now ≤ 200 }
    requires each { AllByRecursion IsLine (map line_held lines.now) }
    ensures filled { IfOk result (λ register. IsFilled (map line_held lines.now)
        register.entries.items register.certificates.items) }
    ensures refused { IfErr result (λ e. e ≢ errors.Memory
        → IsFirstRefused (map line_held lines.now) e) }
{
    let mut register = Register::new(alloc, DemoScheme::new());
    for place in 0..lines.len() {
        issue(alloc, &mut register, lines, place)?;
    }
    Ok(register)
}

/// Issues the certificate of the line at this index, after those of the lines before it.
fn issue(
    alloc: Global,
    register: &mut Register<DemoScheme>,
    lines: &[RegisterLine],
    place: usize,
) -> Result<usize, IssueError>
    requires few { length lines.now ≤ 200 }
    requires within { place < length lines.now }
    requires each { AllByRecursion IsLine (map line_held lines.now) }
    requires filled { IsFilled (take place (map line_held lines.now)) register.old.entries.items
        register.old.certificates.items }
    ensures filled { IfOk result (λ _. IsFilled (take (place + 1) (map line_held lines.now))
        register.new.entries.items register.new.certificates.items) }
    ensures refused { IfErr result (λ e. e ≢ errors.Memory
        → IsFirstRefused (map line_held lines.now) e) }
{
    match lines[place].issuer {
        None => issue_root(alloc, register, lines, place),
        Some(issuer) => issue_child(alloc, register, lines, place, issuer),
    }
}

/// The same of a root, which is signed by its own key.
fn issue_root(
    alloc: Global,
    register: &mut Register<DemoScheme>,
    lines: &[RegisterLine],
    place: usize,
) -> Result<usize, IssueError>
    requires few { length lines.now ≤ 200 }
    requires within { place < length lines.now }
    requires each { AllByRecursion IsLine (map line_held lines.now) }
    requires filled { IsFilled (take place (map line_held lines.now)) register.old.entries.items
        register.old.certificates.items }
    requires root { (line : Line) → slice_get (map line_held lines.now) place ≡ Some line
        → line.issuer ≡ None }
    ensures filled { IfOk result (λ _. IsFilled (take (place + 1) (map line_held lines.now))
        register.new.entries.items register.new.certificates.items) }
    ensures refused { IfErr result (λ e. e ≢ errors.Memory
        → IsFirstRefused (map line_held lines.now) e) }
{
    let line = &lines[place];
    let key = key_or_memory(private_key_of(alloc, line.key))?;
    let name = name_of(alloc, line)?;
    register.root(name, &key, grant_of(line), place as u32 + 1)
}

/// The same of a child, which is signed by the key of its issuer's line.
fn issue_child(
    alloc: Global,
    register: &mut Register<DemoScheme>,
    lines: &[RegisterLine],
    place: usize,
    issuer: usize,
) -> Result<usize, IssueError>
    requires few { length lines.now ≤ 200 }
    requires within { place < length lines.now }
    requires each { AllByRecursion IsLine (map line_held lines.now) }
    requires filled { IsFilled (take place (map line_held lines.now)) register.old.entries.items
        register.old.certificates.items }
    requires by { (line : Line) → slice_get (map line_held lines.now) place ≡ Some line
        → line.issuer ≡ Some issuer }
    ensures filled { IfOk result (λ _. IsFilled (take (place + 1) (map line_held lines.now))
        register.new.entries.items register.new.certificates.items) }
    ensures refused { IfErr result (λ e. e ≢ errors.Memory
        → IsFirstRefused (map line_held lines.now) e) }
{
    let line = &lines[place];
    let signer = key_or_memory(private_key_of(alloc, signer_of(lines, issuer)))?;
    let name = name_of(alloc, line)?;
    let key = key_or_memory(public_key_of(alloc, line.key))?;
    register.child(issuer, &signer, name, key, grant_of(line), place as u32 + 1)
}

/// The number of the key of the line at this index, 0 if there is none.
fn signer_of(lines: &[RegisterLine], place: usize) -> u8
    ensures { IsKeyAt (map line_held lines.now) place result }
{
    match lines.get(place) {
        Some(line) => line.key,
        None => 0,
    }
}

/// The name of a line.
fn name_of(alloc: Global, line: &RegisterLine) -> Result<DirectoryName, AllocError>
    ensures { IfOk result (λ made. name (sets_of made) ≡ common_name (line_held line.now).name) }
{
    DirectoryName::new_common_name(alloc, line.name.as_str())
}

/// The grant of a line.
fn grant_of(line: &RegisterLine) -> Grant
    ensures { result ≡ grant_of (line_held line.now) }
{
    Grant {
        ca: line.ca,
        path_length: line.limits.path_length,
        from: line.limits.from,
        to: line.limits.to,
    }
}
