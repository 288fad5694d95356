//! Reference codes.
ghost use Rattle.std.specs.Prelude.{◌≡◌, ◌<◌, ◌++◌, ◌∷◌, IfOk, OnOk};
ghost use Rattle.std.specs.String.{string_bytes};
ghost use Rattle.isad_core.specs.Codes.{code_of};

use crate::text::{Text, is_blank};
use std::alloc::{AllocError, Global};

/// The reference code of a unit (ISAD(G) 3.1.1), such as `GB 0999 HUL/1`. `ids` are the identifiers of the units from
/// the top down to it. Blank identifiers are left out.
pub fn join_code(alloc: Global, country: &str, repo: &str, ids: &[Text]) -> Result<Text, AllocError>
    ensures { IfOk result (λ code. code ≡ code_of country.now repo.now ids.now) }
{
    let mut code = String::from_str(alloc, country)?;
    push_after(&mut code, ' ', repo)?;
    let mut separator = ' ';
    for id in ids {
        if !is_blank(id.as_str()) {
            push_after(&mut code, separator, id.as_str())?;
            separator = '/';
        }
    }
    Ok(Text(code))
}

/// Appends a separator and a text.
fn push_after(code: &mut String, separator: char, text: &str) -> Result<(), AllocError>
    requires { separator < 128 }
    ensures { OnOk result (string_bytes code.new ≡ string_bytes code.old ++ separator ∷ text.now) }
{
    code.push(separator)?;
    code.push_str(text)
}
