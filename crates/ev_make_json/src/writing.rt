//! Writing a script in JSON.

ghost use Rattle.std.specs.Prelude.{◌≡◌, IfOk, Some, string_bytes};
ghost use Rattle.ev_script.specs.Json.{json_of};
ghost use Rattle.ev_script.specs.Script.{read};
ghost use Rattle.ev_make_json.specs.Data.{script_data, written};
ghost use Rattle.ev_make_json.specs.Read.{read_told};

use crate::data::script_data;
use def_vats::Told;
use ev_base::Memory;
use std::alloc::Global;

/// The script in JSON, on one line without a line end. It is read as what is told, and as nothing else: rule by rule, the reader of
/// scripts asks of these bytes what it would ask of the texts that are told. It refuses for want of memory alone.
pub fn write_script(alloc: Global, told: &Told) -> Result<String, Memory>
    ensures text { IfOk result (λ text. string_bytes text ≡ written told.now) }
    ensures value { IfOk result (λ text. json_of (string_bytes text) ≡ Some (script_data told.now)) }
    ensures reads { IfOk result (λ text. read (string_bytes text) ≡ read_told told.now) }
{
    let value = script_data(alloc, told)?;
    Ok(value.to_string(alloc)?)
}
