//! Policies that a macro keeps in every text.
use std::alloc::AllocError;
use std::io::Write;
use teco_change_policies::always_keep;
use teco_console::Voice;
use teco_policy::Policy;
use teco_promise::Promise;
use teco_told::changes_of_promise;

/// Says which policies hold for every text, by what the macro of a promise can change.
pub fn tell_kept<E: Write + Drop>(
    voice: &mut Voice<E>,
    promise: &Promise<'_>,
    policies: &[Policy],
) -> Result<(), AllocError> {
    if policies.is_empty() {
        return Ok(());
    }
    let Some(changes) = changes_of_promise(voice.alloc(), promise)? else {
        return Ok(());
    };
    for policy in policies {
        if always_keep(&changes, policy) {
            voice.say(format_args!("{policy}: holds for every text"));
        }
    }
    Ok(())
}
