//! Laws of scripts as text, most of them the contract of a function that does nothing.
ghost use Rattle.std.specs.Prelude.{◌≡◌, ◌≢◌, ℕ, List, IfOk, IsOkUnless};
ghost use Rattle.bd_base.specs.declared.script.Script.{Script};
ghost use Rattle.bd_blocks.specs.Texts.{number_text};
ghost use Rattle.bd_script.specs.Refusals.{IsBadScript};
ghost use Rattle.bd_script.specs.Texts.{IsScript, IsScriptText, script_text};

use crate::error::ScriptError;
use crate::printer::print_script;
use crate::reader::read_script;
use bd_base::{Bytes, Script};
use std::alloc::Global;

/// A text is that of one script at most.
pub fn one_script()
    ensures { (s t : Script) → IsScript s → IsScript t → script_text s ≡ script_text t → s ≡ t }
{}

/// A text that is refused is that of no script.
pub fn refused_is_no_script()
    ensures { (text : List ℕ) (line rule : ℕ) → IsBadScript text line rule
        → (s : Script) → IsScript s → text ≢ script_text s }
{}

/// A text is refused with one line and one rule.
pub fn one_refusal()
    ensures { (text : List ℕ) (m r n q : ℕ) → IsBadScript text m r → IsBadScript text n q
        → (m ≡ n) × (r ≡ q) }
{}

/// A script within the limits whose text is not too long is printed, and read again as it is.
pub fn printed_is_read(alloc: Global, script: &Script) -> Result<Script, ScriptError>
    requires { IsScript script.now }
    ensures same { IfOk result (λ again. again ≡ script.now) }
    ensures only_memory { IsOkUnless result ScriptError.OutOfMemory }
{
    let text = print_script(alloc, script)?;
    read_script(alloc, text.as_slice())
}

/// The text of a script is read, and printed again byte for byte.
pub fn read_is_printed(alloc: Global, text: &[u8]) -> Result<Bytes, ScriptError>
    requires { IsScriptText text.now }
    ensures same { IfOk result (λ again. again ≡ text.now) }
    ensures only_memory { IsOkUnless result ScriptError.OutOfMemory }
{
    let script = read_script(alloc, text)?;
    Ok(print_script(alloc, &script)?)
}
