ghost use Rattle.std.specs.Prelude.{◌≡◌, ◌≤◌, IfSome};
ghost use Rattle.serde_json.specs.View.{view};
ghost use Rattle.log_text.specs.Numbers.{whole_number, number_within, session_of};

use serde_json::Value;

pub(crate) fn whole_number(value: &Value) -> Option<u64>
    ensures { result ≡ whole_number (view value.now) }
{
    value.as_u64()
}

pub(crate) fn number_within(least: u64, most: u64, value: &Value) -> Option<u64>
    ensures form { result ≡ number_within least most (view value.now) }
    ensures within { IfSome result (λ n. (least ≤ n) × (n ≤ most)) }
{
    let number = whole_number(value)?;
    if least <= number && number <= most {
        Some(number)
    } else {
        None
    }
}

pub(crate) fn session_of(value: &Value) -> Option<u8>
    ensures { result ≡ session_of (view value.now) }
{
    u8::try_from(whole_number(value)?).ok()
}
