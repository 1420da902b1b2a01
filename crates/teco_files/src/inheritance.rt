//! What a new file inherits of the file that it will replace.
use crate::system::System;
use std::fs::{Metadata, Permissions};
use std::os::unix::fs::{MetadataExt, PermissionsExt};

// The permissions without the bits by which a program runs as its owner or its group.
const WITHOUT_SET_ID: u32 = 0o1777;

/// Gives an open file the owner and the group of the one that it will replace, as far as the system
/// lets it, unless it was made with them. Its permissions are given once it is written, since a write
/// may take the set-id bits away: they are those of the other file, but without its owner and its group
/// the set-id bits go.
pub fn inherit_owner<R: System>(
    rt: &R,
    file: &R::File,
    made: Option<&Metadata>,
    replaced: &Metadata,
) -> Permissions {
    let mode = replaced.permissions().mode();
    if has_owner(made, replaced) || takes_owner(rt, file, replaced) {
        Permissions::from_mode(mode)
    } else {
        Permissions::from_mode(mode & WITHOUT_SET_ID)
    }
}

// Was the file made with the owner and the group of the other?
fn has_owner(made: Option<&Metadata>, replaced: &Metadata) -> bool {
    match made {
        Some(made) => made.uid() == replaced.uid() && made.gid() == replaced.gid(),
        None => false,
    }
}

// Does the file take the owner and the group? The group alone is taken where the owner is refused.
fn takes_owner<R: System>(rt: &R, file: &R::File, replaced: &Metadata) -> bool {
    let group = Some(replaced.gid());
    if rt.give_owner(file, Some(replaced.uid()), group).is_ok() {
        return true;
    }
    let _taken = rt.give_owner(file, None, group);
    false
}
