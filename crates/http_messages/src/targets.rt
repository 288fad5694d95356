//! The path of a target.
ghost use Rattle.std.specs.Prelude.{◌≡◌};
ghost use Rattle.http_messages.specs.Targets as spec;

/// The bytes before the first question mark.
fn before_query(target: &[u8]) -> &[u8]
    ensures { result.now ≡ spec.before_query target.now }
{
    for (i, byte) in target.iter().enumerate() {
        if *byte == b'?' {
            return &target[..i];
        }
    }
    target
}

/// The bytes from the first slash or number sign on.
fn after_authority(target: &[u8]) -> &[u8]
    ensures { result.now ≡ spec.after_authority target.now }
{
    let mut rest = target;
    while let [first, others @ ..] = rest {
        if *first == b'/' {
            return rest;
        }
        if *first == b'#' {
            return rest;
        }
        rest = others;
    }
    rest
}

fn is_scheme(front: &[u8]) -> bool
    ensures { result ≡ spec.is_scheme front.now }
{
    front.eq_ignore_ascii_case(b"http://")
}

/// The target; without its scheme and authority if it is in absolute form.
fn without_origin(target: &[u8]) -> &[u8]
    ensures { result.now ≡ spec.without_origin target.now }
{
    let end = target.len().min(7);
    if is_scheme(&target[..end]) {
        after_authority(&target[end..])
    } else {
        target
    }
}

/// The path of a target: what is before the first question mark, without `http://` and an authority. It is `/` if that
/// is empty. Nothing is decoded.
pub fn path_of(target: &[u8]) -> &[u8]
    ensures { result.now ≡ spec.path_of target.now }
{
    let path = without_origin(before_query(target));
    match path {
        [] => b"/",
        [_, ..] => path,
    }
}
