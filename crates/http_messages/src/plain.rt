//! The parts of a head in the form of the desk's profile.
ghost use Rattle.std.specs.Prelude.{◌≡◌, ◌<◌, ◌≤◌, length, IfOk, IfSome};
ghost use Rattle.std.specs.List.{position};
ghost use Rattle.allotment.specs.Texts.{keep_if};
ghost use Rattle.commands.specs.Names.{is_key};
ghost use Rattle.http_messages.specs.Plain.{are_digits, authority_length, ends_authority, has_empty_query, host_for, is_absolute, is_uuid};
ghost use Rattle.http_messages.specs.Plain.{path_of, plain_key, plain_method, plain_target};
ghost use Rattle.http_messages.specs.Plain.{uuid_digits, without_empty_query};

use crate::heads::key_in;
use commands::Key;
use std::alloc::{AllocError, Global};

/// What comes before a host in a target of absolute form, in any case.
const SCHEME: &[u8; 7] = b"http://";

/// How many bytes a UUID has in its usual form.
const UUID: usize = 36;

/// The method for whose page a method asks.
pub(crate) fn plain_method(method: &[u8]) -> &[u8]
    ensures method { result.now ≡ plain_method method.now }
{
    if method == b"HEAD".as_slice() {
        b"GET"
    } else {
        method
    }
}

/// The path of a target, without an empty query.
pub(crate) fn plain_target(target: &[u8]) -> &[u8]
    ensures target { result.now ≡ plain_target target.now }
{
    without_empty_query(path_of(target))
}

/// The host that a target in absolute form names; of another target this one, which the field `Host` names.
pub(crate) fn host_for<'a>(target: &'a [u8], host: &'a [u8]) -> &'a [u8]
    ensures host { result.now ≡ host_for target.now host.now }
{
    if is_absolute(target) {
        let later = &target[SCHEME.len()..];
        &later[..authority_length(later)]
    } else {
        host
    }
}

/// The path of a target in absolute form; another target as it is.
fn path_of(target: &[u8]) -> &[u8]
    ensures path { result.now ≡ path_of target.now }
{
    if is_absolute(target) {
        let later = &target[SCHEME.len()..];
        &later[authority_length(later)..]
    } else {
        target
    }
}

/// Whether a target is in absolute form: a scheme, a host, and a path.
fn is_absolute(target: &[u8]) -> bool
    ensures absolute { result ≡ is_absolute target.now }
{
    if target.len() < SCHEME.len() {
        return false;
    }
    let (scheme, later) = target.split_at(SCHEME.len());
    let (authority, path) = later.split_at(authority_length(later));
    scheme.eq_ignore_ascii_case(SCHEME)
        && !authority.is_empty()
        && !path.is_empty()
        && path[0] == b'/'
}

/// How many bytes the authority has with which a text begins.
fn authority_length(text: &[u8]) -> usize
    ensures within { result ≤ length text.now }
    ensures length { result ≡ authority_length text.now }
{
    match end_of_authority(text) {
        Some(end) => end,
        None => text.len(),
    }
}

/// Where the first byte stands that ends an authority (RFC 3986, section 3.2).
fn end_of_authority(text: &[u8]) -> Option<usize>
    ensures place { result ≡ position ends_authority text.now }
    ensures within { IfSome result (λ at. at < length text.now) }
{
    text.iter()
        .position(|byte| *byte == b'/' || *byte == b'?' || *byte == b'#')
}

/// A path without an empty query.
fn without_empty_query(path: &[u8]) -> &[u8]
    ensures path { result.now ≡ without_empty_query path.now }
{
    if path.is_empty() {
        return path;
    }
    let last = path.len() - 1;
    if path[last] == b'?' && !path[..last].contains(&b'?') {
        &path[..last]
    } else {
        path
    }
}

/// The key that these bytes spell, if they spell one; a UUID in its usual form spells its 32 digits.
pub(crate) fn plain_key(alloc: Global, key: &[u8]) -> Result<Option<Key>, AllocError>
    ensures form { IfOk result (λ found. found ≡ keep_if is_key (plain_key key.now)) }
{
    if is_uuid(key) {
        let digits = uuid_digits(alloc, key)?;
        Ok(key_in(&digits))
    } else {
        Ok(key_in(key))
    }
}

/// Whether a key is a UUID in its usual form (RFC 9562, section 4).
fn is_uuid(key: &[u8]) -> bool
    ensures uuid { result ≡ is_uuid key.now }
{
    key.len() == UUID
        && are_digits(&key[..8])
        && key[8] == b'-'
        && are_digits(&key[9..13])
        && key[13] == b'-'
        && are_digits(&key[14..18])
        && key[18] == b'-'
        && are_digits(&key[19..23])
        && key[23] == b'-'
        && are_digits(&key[24..])
}

/// Whether all bytes are hexadecimal digits.
fn are_digits(text: &[u8]) -> bool
    ensures digits { result ≡ are_digits text.now }
{
    text.iter().all(|byte| byte.is_ascii_hexdigit())
}

/// The digits of a UUID.
fn uuid_digits(alloc: Global, key: &[u8]) -> Result<Vec<u8>, AllocError>
    requires { length key.now ≡ UUID }
    ensures digits { IfOk result (λ digits. digits.items ≡ uuid_digits key.now) }
{
    let mut digits = key[..8].to_vec(alloc)?;
    digits.extend_from_slice(&key[9..13])?;
    digits.extend_from_slice(&key[14..18])?;
    digits.extend_from_slice(&key[19..23])?;
    digits.extend_from_slice(&key[24..])?;
    Ok(digits)
}
