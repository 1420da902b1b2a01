//! Words that ask for policies, how these are printed, and why a word asks for none.
use std::alloc::Global;
use teco_policy::PolicyOption::{Add, Keep, Most, Take};
use teco_policy::{Policy, PolicyOption, PolicyRefusal};

// An option, a word, and what the policy is printed as.
type Printed = (PolicyOption, &'static [u8], &'static str);

fn is_printed(alloc: Global, (option, word, shown): &Printed) -> Option<bool> {
    let policy = Policy::read(alloc, *option, word, false).ok()?;
    let text = format!(in alloc; "{policy}").ok()?;
    Some(policy.option() == *option && text.as_str() == *shown)
}

const PRINTED: &[Printed] = &[
    (Keep, b"text", "--keep text"),
    (Keep, b"size", "--keep size"),
    (Keep, b"lines", "--keep lines"),
    (Keep, b"others=foo^X", "--keep others=foo^X"),
    (Keep, b"others=\xc3\xa9", "--keep others=\u{e9}"),
    (Add, b"nothing", "--add nothing"),
    (Add, b"only=,;", "--add only=,;"),
    (Add, b"only=\t ", "--add only=\\x09 "),
    (Take, b"only=\r", "--take only=\\x0d"),
    (Take, b"only=", "--take only="),
    (Most, b"12", "--most 12"),
    (Most, b"007", "--most 7"),
    (Most, b"5%", "--most 5%"),
];

// An option, a word that asks for no policy, and why.
type Refused = (PolicyOption, &'static [u8], PolicyRefusal);

fn is_refused(alloc: Global, (option, word, why): &Refused) -> bool {
    match Policy::read(alloc, *option, word, false) {
        Ok(_) => false,
        Err(refusal) => refusal == *why,
    }
}

const REFUSED: &[Refused] = &[
    (Keep, b"", PolicyRefusal::Word),
    (Keep, b"Text", PolicyRefusal::Word),
    (Keep, b"nothing", PolicyRefusal::Word),
    (Keep, b"others", PolicyRefusal::Word),
    (Keep, b"others=", PolicyRefusal::NoPattern),
    (Keep, b"others=a^", PolicyRefusal::IllFormed),
    (Keep, b"others=^EZ", PolicyRefusal::IllFormed),
    (Keep, b"others=^EQA", PolicyRefusal::Register),
    (Add, b"text", PolicyRefusal::Word),
    (Add, b"only", PolicyRefusal::Word),
    (Take, b"nothing", PolicyRefusal::Word),
    (Most, b"", PolicyRefusal::Number),
    (Most, b"%", PolicyRefusal::Number),
    (Most, b"-1", PolicyRefusal::Number),
    (Most, b"5%%", PolicyRefusal::Number),
    (Most, b"18446744073709551616", PolicyRefusal::Number),
    (Most, b"101%", PolicyRefusal::Percent),
];

#[test]
fn words_are_read_and_printed(rt: HostRuntime) {
    for (number, row) in PRINTED.iter().enumerate() {
        assert!(rt;
            is_printed(rt.alloc(), row) == Some(true),
            "printed {number}"
        );
    }
    for (number, row) in REFUSED.iter().enumerate() {
        assert!(rt; is_refused(rt.alloc(), row), "refused {number}");
    }
}
