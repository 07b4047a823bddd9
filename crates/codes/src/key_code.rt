// The key codes of keyberon's `KeyCode`, by its names, as bytes: the usages of the HID keyboard page, and 0xE8 to 0xFB,
// which the HID Usage Tables reserve and the crate names all the same (docs/DIFFERENCES.md). The names are those of the
// American layout, spelled as keyberon spells them (`MeidaCoffee` too).
// Assumes nothing.
ghost use Rattle.std.specs.Prelude.{◌≡◌};
ghost use Rattle.codes.specs.Codes.{legal, modifier, modifier_bit};

// Names for bytes and no enum: `is_modifier`, `as_modifier_bit` and `pressed` answer every byte, and an enum would ask more.
#[derive(Clone, Copy)]
pub struct KeyCode;

impl KeyCode {
    pub const No: u8 = 0x00;

    pub const ErrorRollOver: u8 = 0x01;

    pub const PostFail: u8 = 0x02;

    pub const ErrorUndefined: u8 = 0x03;

    pub const A: u8 = 0x04;

    pub const B: u8 = 0x05;

    pub const C: u8 = 0x06;

    pub const D: u8 = 0x07;

    pub const E: u8 = 0x08;

    pub const F: u8 = 0x09;

    pub const G: u8 = 0x0A;

    pub const H: u8 = 0x0B;

    pub const I: u8 = 0x0C;

    pub const J: u8 = 0x0D;

    pub const K: u8 = 0x0E;

    pub const L: u8 = 0x0F;

    pub const M: u8 = 0x10;

    pub const N: u8 = 0x11;

    pub const O: u8 = 0x12;

    pub const P: u8 = 0x13;

    pub const Q: u8 = 0x14;

    pub const R: u8 = 0x15;

    pub const S: u8 = 0x16;

    pub const T: u8 = 0x17;

    pub const U: u8 = 0x18;

    pub const V: u8 = 0x19;

    pub const W: u8 = 0x1A;

    pub const X: u8 = 0x1B;

    pub const Y: u8 = 0x1C;

    pub const Z: u8 = 0x1D;

    pub const Kb1: u8 = 0x1E;

    pub const Kb2: u8 = 0x1F;

    pub const Kb3: u8 = 0x20;

    pub const Kb4: u8 = 0x21;

    pub const Kb5: u8 = 0x22;

    pub const Kb6: u8 = 0x23;

    pub const Kb7: u8 = 0x24;

    pub const Kb8: u8 = 0x25;

    pub const Kb9: u8 = 0x26;

    pub const Kb0: u8 = 0x27;

    pub const Enter: u8 = 0x28;

    pub const Escape: u8 = 0x29;

    pub const BSpace: u8 = 0x2A;

    pub const Tab: u8 = 0x2B;

    pub const Space: u8 = 0x2C;

    pub const Minus: u8 = 0x2D;

    pub const Equal: u8 = 0x2E;

    pub const LBracket: u8 = 0x2F;

    pub const RBracket: u8 = 0x30;

    pub const Bslash: u8 = 0x31;

    pub const NonUsHash: u8 = 0x32;

    pub const SColon: u8 = 0x33;

    pub const Quote: u8 = 0x34;

    pub const Grave: u8 = 0x35;

    pub const Comma: u8 = 0x36;

    pub const Dot: u8 = 0x37;

    pub const Slash: u8 = 0x38;

    pub const CapsLock: u8 = 0x39;

    pub const F1: u8 = 0x3A;

    pub const F2: u8 = 0x3B;

    pub const F3: u8 = 0x3C;

    pub const F4: u8 = 0x3D;

    pub const F5: u8 = 0x3E;

    pub const F6: u8 = 0x3F;

    pub const F7: u8 = 0x40;

    pub const F8: u8 = 0x41;

    pub const F9: u8 = 0x42;

    pub const F10: u8 = 0x43;

    pub const F11: u8 = 0x44;

    pub const F12: u8 = 0x45;

    pub const PScreen: u8 = 0x46;

    pub const ScrollLock: u8 = 0x47;

    pub const Pause: u8 = 0x48;

    pub const Insert: u8 = 0x49;

    pub const Home: u8 = 0x4A;

    pub const PgUp: u8 = 0x4B;

    pub const Delete: u8 = 0x4C;

    pub const End: u8 = 0x4D;

    pub const PgDown: u8 = 0x4E;

    pub const Right: u8 = 0x4F;

    pub const Left: u8 = 0x50;

    pub const Down: u8 = 0x51;

    pub const Up: u8 = 0x52;

    pub const NumLock: u8 = 0x53;

    pub const KpSlash: u8 = 0x54;

    pub const KpAsterisk: u8 = 0x55;

    pub const KpMinus: u8 = 0x56;

    pub const KpPlus: u8 = 0x57;

    pub const KpEnter: u8 = 0x58;

    pub const Kp1: u8 = 0x59;

    pub const Kp2: u8 = 0x5A;

    pub const Kp3: u8 = 0x5B;

    pub const Kp4: u8 = 0x5C;

    pub const Kp5: u8 = 0x5D;

    pub const Kp6: u8 = 0x5E;

    pub const Kp7: u8 = 0x5F;

    pub const Kp8: u8 = 0x60;

    pub const Kp9: u8 = 0x61;

    pub const Kp0: u8 = 0x62;

    pub const KpDot: u8 = 0x63;

    pub const NonUsBslash: u8 = 0x64;

    pub const Application: u8 = 0x65;

    pub const Power: u8 = 0x66;

    pub const KpEqual: u8 = 0x67;

    pub const F13: u8 = 0x68;

    pub const F14: u8 = 0x69;

    pub const F15: u8 = 0x6A;

    pub const F16: u8 = 0x6B;

    pub const F17: u8 = 0x6C;

    pub const F18: u8 = 0x6D;

    pub const F19: u8 = 0x6E;

    pub const F20: u8 = 0x6F;

    pub const F21: u8 = 0x70;

    pub const F22: u8 = 0x71;

    pub const F23: u8 = 0x72;

    pub const F24: u8 = 0x73;

    pub const Execute: u8 = 0x74;

    pub const Help: u8 = 0x75;

    pub const Menu: u8 = 0x76;

    pub const Select: u8 = 0x77;

    pub const Stop: u8 = 0x78;

    pub const Again: u8 = 0x79;

    pub const Undo: u8 = 0x7A;

    pub const Cut: u8 = 0x7B;

    pub const Copy: u8 = 0x7C;

    pub const Paste: u8 = 0x7D;

    pub const Find: u8 = 0x7E;

    pub const Mute: u8 = 0x7F;

    pub const VolUp: u8 = 0x80;

    pub const VolDown: u8 = 0x81;

    pub const LockingCapsLock: u8 = 0x82;

    pub const LockingNumLock: u8 = 0x83;

    pub const LockingScrollLock: u8 = 0x84;

    pub const KpComma: u8 = 0x85;

    pub const KpEqualSign: u8 = 0x86;

    pub const Intl1: u8 = 0x87;

    pub const Intl2: u8 = 0x88;

    pub const Intl3: u8 = 0x89;

    pub const Intl4: u8 = 0x8A;

    pub const Intl5: u8 = 0x8B;

    pub const Intl6: u8 = 0x8C;

    pub const Intl7: u8 = 0x8D;

    pub const Intl8: u8 = 0x8E;

    pub const Intl9: u8 = 0x8F;

    pub const Lang1: u8 = 0x90;

    pub const Lang2: u8 = 0x91;

    pub const Lang3: u8 = 0x92;

    pub const Lang4: u8 = 0x93;

    pub const Lang5: u8 = 0x94;

    pub const Lang6: u8 = 0x95;

    pub const Lang7: u8 = 0x96;

    pub const Lang8: u8 = 0x97;

    pub const Lang9: u8 = 0x98;

    pub const AltErase: u8 = 0x99;

    pub const SysReq: u8 = 0x9A;

    pub const Cancel: u8 = 0x9B;

    pub const Clear: u8 = 0x9C;

    pub const Prior: u8 = 0x9D;

    pub const Return: u8 = 0x9E;

    pub const Separator: u8 = 0x9F;

    pub const Out: u8 = 0xA0;

    pub const Oper: u8 = 0xA1;

    pub const ClearAgain: u8 = 0xA2;

    pub const CrSel: u8 = 0xA3;

    pub const ExSel: u8 = 0xA4;

    pub const LCtrl: u8 = 0xE0;

    pub const LShift: u8 = 0xE1;

    pub const LAlt: u8 = 0xE2;

    pub const LGui: u8 = 0xE3;

    pub const RCtrl: u8 = 0xE4;

    pub const RShift: u8 = 0xE5;

    pub const RAlt: u8 = 0xE6;

    pub const RGui: u8 = 0xE7;

    pub const MediaPlayPause: u8 = 0xE8;

    pub const MediaStopCD: u8 = 0xE9;

    pub const MediaPreviousSong: u8 = 0xEA;

    pub const MediaNextSong: u8 = 0xEB;

    pub const MediaEjectCD: u8 = 0xEC;

    pub const MediaVolUp: u8 = 0xED;

    pub const MediaVolDown: u8 = 0xEE;

    pub const MediaMute: u8 = 0xEF;

    pub const MediaWWW: u8 = 0xF0;

    pub const MediaBack: u8 = 0xF1;

    pub const MediaForward: u8 = 0xF2;

    pub const MediaStop: u8 = 0xF3;

    pub const MediaFind: u8 = 0xF4;

    pub const MediaScrollUp: u8 = 0xF5;

    pub const MediaScrollDown: u8 = 0xF6;

    pub const MediaEdit: u8 = 0xF7;

    pub const MediaSleep: u8 = 0xF8;

    pub const MeidaCoffee: u8 = 0xF9;

    pub const MediaRefresh: u8 = 0xFA;

    pub const MediaCalc: u8 = 0xFB;

    // Whether a word of a table image is a legal code.
    #[tactic(auto, unfolding(crate::specs::Codes::legal))]
    pub fn is_legal(word: u16) -> bool
        ensures { result ≡ legal word }
    {
        matches!(word, 0..=0xA4 | 0xE0..=0xFB)
    }

    // Whether the code has a bit of its own in the report's first byte.
    #[tactic(auto, unfolding(crate::specs::Codes::modifier))]
    pub fn is_modifier(code: u8) -> bool
        ensures { result ≡ modifier code }
    {
        matches!(code, KeyCode::LCtrl..=KeyCode::RGui)
    }

    // The modifier's bit in the report's first byte; 0, which adds none, for a code that is no modifier.
    #[tactic(auto, unfolding(crate::specs::Codes::modifier, crate::specs::Codes::modifier_bit))]
    pub fn as_modifier_bit(code: u8) -> u8
        ensures { result ≡ modifier_bit code }
    {
        if KeyCode::is_modifier(code) {
            1 << (code - KeyCode::LCtrl)
        } else {
            0
        }
    }
}
