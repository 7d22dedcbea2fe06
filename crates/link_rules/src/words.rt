// Names, numbers and attributes, as the words of script lines have them.
ghost use Rattle.std.specs.Prelude.{◌≡◌, ◌^◌, ◌<◌};
ghost use Rattle.std.specs.Char.{is_ascii_digit};
ghost use Rattle.std.specs.List.{list_all};
ghost use Rattle.plan_files.specs.Spelling.{is_numeral, number_of};
ghost use Rattle.link_rules.specs.Reading.{attr_among, attr_named, nqn_of, number_below};
ghost use Rattle.link_rules.specs.Spelling.{attr_word};

use configfs_tree::{Attr, Nqn};

const ATTRS: [Attr; 14] = [
    Attr::AllowAnyHost,
    Attr::Serial,
    Attr::ModelName,
    Attr::DevicePath,
    Attr::DeviceUuid,
    Attr::DeviceNguid,
    Attr::AnaGrpid,
    Attr::Enable,
    Attr::Trtype,
    Attr::Adrfam,
    Attr::Traddr,
    Attr::Trsvcid,
    Attr::Treq,
    Attr::AnaState,
];

// The NQN that a word is.
#[tactic(auto, unfolding(crate::specs::Reading::nqn_of))]
pub(crate) fn nqn(word: &[u8]) -> Option<Nqn>
    ensures { result ≡ nqn_of word.now }
{
    Nqn::read(word)
}

fn all_digits(word: &[u8]) -> bool
    ensures { result ≡ list_all is_ascii_digit word.now }
{
    word.iter().all(|b| b.is_ascii_digit())
}

// Whether a word is digits alone, with no leading zero but in `0` itself.
#[tactic(auto, unfolding(plan_files::specs::Spelling::is_numeral))]
fn is_numeral(word: &[u8]) -> bool
    ensures { result ≡ is_numeral word.now }
{
    1 <= word.len() && (word.len() == 1 || word[0] != b'0') && all_digits(word)
}

// The number that a word is.
fn number(word: &[u8]) -> Option<u64>
    ensures { result ≡ number_of word.now }
{
    if !is_numeral(word) {
        return None;
    }
    match str::from_utf8(word) {
        Ok(text) => text.parse::<u64>().ok(),
        Err(_) => None,
    }
}

// The number of a port that a word is.
#[tactic(auto, unfolding(crate::specs::Reading::number_below))]
pub(crate) fn port_id(word: &[u8]) -> Option<u16>
    ensures { result ≡ number_below (2 ^ 16) word.now }
{
    let Some(number) = number(word) else {
        return None;
    };
    if number >= 1 << 16 {
        return None;
    }
    Some(number as u16)
}

// The number of a namespace or of an ANA group that a word is.
#[tactic(auto, unfolding(crate::specs::Reading::number_below))]
pub(crate) fn identifier(word: &[u8]) -> Option<u32>
    ensures { result ≡ number_below (2 ^ 32) word.now }
{
    let Some(number) = number(word) else {
        return None;
    };
    if number >= 1 << 32 {
        return None;
    }
    Some(number as u32)
}

// The name of an attribute.
fn attr_word(attr: Attr) -> &'static str
    ensures { result.now ≡ attr_word attr }
{
    match attr {
        Attr::AllowAnyHost => "attr_allow_any_host",
        Attr::Serial => "attr_serial",
        Attr::ModelName => "attr_model",
        Attr::DevicePath => "device_path",
        Attr::DeviceUuid => "device_uuid",
        Attr::DeviceNguid => "device_nguid",
        Attr::AnaGrpid => "ana_grpid",
        Attr::Enable => "enable",
        Attr::Trtype => "addr_trtype",
        Attr::Adrfam => "addr_adrfam",
        Attr::Traddr => "addr_traddr",
        Attr::Trsvcid => "addr_trsvcid",
        Attr::Treq => "addr_treq",
        Attr::AnaState => "ana_state",
    }
}

// Of these attributes the one that a word names.
fn attr_among(word: &[u8], attrs: &[Attr]) -> Option<Attr>
    ensures { result ≡ attr_among word.now attrs.now }
{
    match attrs {
        [] => None,
        [attr, rest @ ..] => {
            if word == attr_word(*attr).as_bytes() {
                return Some(*attr);
            }
            attr_among(word, rest)
        }
    }
}

// The attribute that a word names.
pub(crate) fn attribute_of(word: &[u8]) -> Option<Attr>
    ensures { result ≡ attr_named word.now }
{
    attr_among(word, &ATTRS)
}
