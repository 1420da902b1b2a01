//! The examples that stand in the documentation of verdicts, witnesses and verified runs.
use crate::subjects::expect;
use std::alloc::Global;
use std::process::Abort;
use std::test::*;
use teco_base::{Code, LIMIT, Reg};
use teco_hosts::MemHost;
use teco_library::Library;
use teco_model::{Needs, Stop};
use teco_run::Machine;
use teco_text::GapText;
use teco_verified_runs::run_verified;
use teco_verify::{Verified, check_certificate, verify};
use teco_witness::{Subject, WitnessEnd, find_witness};

fn is_checked(alloc: Global, verified: &Verified<'_>) -> Option<bool> {
    let certificate = verified.certificate(alloc).ok()?;
    if certificate.len() > LIMIT {
        return None;
    }
    Some(check_certificate(alloc, verified.library(), &certificate).is_ok())
}

fn checks_a_certificate(alloc: Global) -> Option<bool> {
    let library = Library::read(alloc, b"@^UA/J<:Sa\x1b;-D>/").ok()?;
    let verified = verify(alloc, &library, Reg::of(b'A')?).ok()?;
    is_checked(alloc, &verified)
}

fn types_bnn(
    machine: &mut Machine<GapText>,
    verified: &Verified<'_>,
    host: &mut MemHost,
) -> Option<bool> {
    machine.run(b"Ibanana\x1b", 100, host);
    let stop = run_verified(machine, verified, host).ok()?;
    let typed = machine.take_typed();
    Some(matches!(stop, Stop::Ended { .. }) && typed.as_slice() == b"bnn".as_slice())
}

fn runs_a_verified_macro(alloc: Global) -> Option<bool> {
    let library = Library::read(alloc, b"@^UA/J<:Sa\x1b;-D>HT/").ok()?;
    let verified = verify(alloc, &library, Reg::of(b'A')?).ok()?;
    let mut machine = Box::new(alloc, Machine::new(alloc, GapText::new(alloc))).ok()?;
    types_bnn(machine.as_mut(), &verified, &mut MemHost::new(alloc))
}

fn finds_a_witness(alloc: Global) -> Option<bool> {
    let library = Library::read(alloc, b"@^UA/J<.-Z;2C>/").ok()?;
    let subject = Subject {
        library: &library,
        entry: Reg::of(b'A')?,
        argument: None,
        needs: Needs {
            input: false,
            output: false,
        },
    };
    let witness = find_witness(alloc, &subject, 1_000_000).ok()??;
    let text = witness.world.text.as_slice();
    Some(
        text == b"a".as_slice()
            && matches!(
                witness.end,
                WitnessEnd::Code {
                    code: Code::Pop,
                    ..
                }
            ),
    )
}

#[test]
fn examples_hold(rt: HostRuntime) {
    expect(
        &rt,
        checks_a_certificate(rt.alloc()) == Some(true),
        "a certificate is checked",
    );
    expect(
        &rt,
        runs_a_verified_macro(rt.alloc()) == Some(true),
        "a verified macro is run",
    );
    expect(
        &rt,
        finds_a_witness(rt.alloc()) == Some(true),
        "a witness is found",
    );
}
