ghost use Rattle.std.specs.Prelude.{◌≡◌, ◌≢◌, ◌<◌, ◌≤◌, [], ◌++◌, length, IsTrue, ◌↔◌, IfOk, MatchOption, bytes_eq};
ghost use Rattle.std.specs.Fmt.{signed_decimal};

use crate::value::ValueFault;
use std::alloc::{AllocError, Global};
use std::marker::Model;
use std::string::ToString;

/// The most bytes of a text value.
pub const TEXT_LIMIT: usize = 4096;

/// The most bytes of a key.
pub const KEY_LIMIT: usize = 64;

/// A text value: at most [`TEXT_LIMIT`] bytes of UTF-8.
#[derive(Debug, Drop)]
pub struct Text {
    text: String,
}

impl Model for Text {
    ghost use Rattle.std.specs.Prelude.{List, ℕ, string_bytes, length, ◌≤◌};

    ghost Value = { List ℕ };

    ghost view = { λ t. string_bytes t.text };

    ghost invariant = { λ t. length (string_bytes t.text) ≤ 4096 };
}

impl Text {
    /// This text.
    ///
    /// # Failure
    /// E03 where it has more than [`TEXT_LIMIT`] bytes.
    pub fn new(alloc: Global, text: &str) -> Result<Text, ValueFault>
        ensures ok { IfOk result (λ t. t ≡ text.now) }
        ensures too_long { (result ≡ Err ValueFault.TooLong) ↔ (TEXT_LIMIT < length text.now) }
        ensures only { result ≢ Err ValueFault.NotAValue }
    {
        if text.len() > TEXT_LIMIT {
            return Err(ValueFault::TooLong);
        }
        let text = String::from_str(alloc, text)?;
        Ok(Text { text })
    }

    /// The text of characters that are known to be few enough, so that nothing but memory can be wanting.
    pub fn fitting(alloc: Global, text: &str) -> Result<Text, AllocError>
        requires { length text.now ≤ TEXT_LIMIT }
        ensures { IfOk result (λ t. t ≡ text.now) }
    {
        let text = String::from_str(alloc, text)?;
        Ok(Text { text })
    }

    /// No text at all.
    pub fn empty(alloc: Global) -> Text
        ensures { result ≡ [] }
    {
        let text = String::new(alloc);
        Text { text }
    }

    /// A number in decimal.
    pub fn decimal(alloc: Global, number: i64) -> Result<Text, AllocError>
        ensures { IfOk result (λ t. t ≡ signed_decimal number) }
    {
        let text = number.to_string(alloc)?;
        Ok(Text { text })
    }

    /// Its characters, at most 4,096 bytes of UTF-8.
    pub fn as_str(&self) -> &str
        ensures text { result.now ≡ self.now }
        ensures short { length result.now ≤ TEXT_LIMIT }
    {
        self.text.as_str()
    }

    /// An equal text, or E01.
    pub fn copy(&self, alloc: Global) -> Result<Text, AllocError>
        ensures { IfOk result (λ t. t ≡ self.now) }
    {
        let text = String::from_str(alloc, self.text.as_str())?;
        Ok(Text { text })
    }

    /// Whether it is this text.
    pub fn is(&self, other: &Text) -> bool
        ensures same { IsTrue result ↔ (self.now ≡ other.now) }
        ensures test { result ≡ bytes_eq self.now other.now }
    {
        self.text.as_str() == other.text.as_str()
    }

    /// The two, one after the other, if that is no more than [`TEXT_LIMIT`] bytes.
    pub fn joined(&self, alloc: Global, other: &Text) -> Result<Option<Text>, AllocError>
        ensures { IfOk result (λ o. MatchOption o (TEXT_LIMIT < length (self.now ++ other.now))
            (λ t. (t ≡ self.now ++ other.now) × (length (self.now ++ other.now) ≤ TEXT_LIMIT))) }
    {
        if self.len() + other.len() > TEXT_LIMIT {
            return Ok(None);
        }
        let mut text = String::from_str(alloc, self.text.as_str())?;
        text.push_str(other.text.as_str())?;
        Ok(Some(Text { text }))
    }

    /// How many bytes it has.
    pub fn len(&self) -> usize
        ensures length { result ≡ length self.now }
        ensures short { result ≤ TEXT_LIMIT }
    {
        self.text.as_bytes().len()
    }
}

/// A name: 1 to [`KEY_LIMIT`] bytes of UTF-8.
#[derive(Debug, Drop)]
pub struct Key {
    text: String,
}

impl Model for Key {
    ghost use Rattle.std.specs.Prelude.{List, ℕ, string_bytes, length, ◌≤◌};

    ghost Value = { List ℕ };

    ghost view = { λ t. string_bytes t.text };

    ghost invariant = { λ t. (1 ≤ length (string_bytes t.text)) × (length (string_bytes t.text) ≤ 64) };
}

impl Key {
    /// This name.
    ///
    /// # Failure
    /// E02 where it is empty, E03 where it has more than [`KEY_LIMIT`] bytes.
    pub fn new(alloc: Global, text: &str) -> Result<Key, ValueFault>
        ensures ok { IfOk result (λ k. k ≡ text.now) }
        ensures empty { (result ≡ Err ValueFault.NotAValue) ↔ (length text.now ≡ 0) }
        ensures too_long { (result ≡ Err ValueFault.TooLong) ↔ (KEY_LIMIT < length text.now) }
    {
        if text.len() == 0 {
            return Err(ValueFault::NotAValue);
        }
        if text.len() > KEY_LIMIT {
            return Err(ValueFault::TooLong);
        }
        let text = String::from_str(alloc, text)?;
        Ok(Key { text })
    }

    /// The key of characters that are known to be one, so that nothing but memory can be wanting.
    pub fn fitting(alloc: Global, text: &str) -> Result<Key, AllocError>
        requires some { 1 ≤ length text.now }
        requires few { length text.now ≤ KEY_LIMIT }
        ensures { IfOk result (λ k. k ≡ text.now) }
    {
        let text = String::from_str(alloc, text)?;
        Ok(Key { text })
    }

    /// Its characters, 1 to 64 bytes of UTF-8.
    pub fn as_str(&self) -> &str
        ensures text { result.now ≡ self.now }
        ensures some { 1 ≤ length result.now }
        ensures short { length result.now ≤ KEY_LIMIT }
    {
        self.text.as_str()
    }

    /// An equal key, or E01.
    pub fn copy(&self, alloc: Global) -> Result<Key, AllocError>
        ensures { IfOk result (λ k. k ≡ self.now) }
    {
        let text = String::from_str(alloc, self.text.as_str())?;
        Ok(Key { text })
    }

    /// Whether it is this name.
    pub fn is(&self, other: &Key) -> bool
        ensures same { IsTrue result ↔ (self.now ≡ other.now) }
        ensures test { result ≡ bytes_eq self.now other.now }
    {
        self.text.as_str() == other.text.as_str()
    }
}

/// UTF-8 of any length, as it came.
#[derive(Debug, Drop)]
pub struct RawText {
    text: String,
}

impl Model for RawText {
    ghost use Rattle.std.specs.Prelude.{List, ℕ, string_bytes};

    ghost Value = { List ℕ };

    ghost view = { λ t. string_bytes t.text };
}

impl RawText {
    /// The text of these characters, of any length, or E01.
    pub fn new(alloc: Global, text: &str) -> Result<RawText, AllocError>
        ensures { IfOk result (λ t. t ≡ text.now) }
    {
        let text = String::from_str(alloc, text)?;
        Ok(RawText { text })
    }

    /// Its characters.
    pub fn as_str(&self) -> &str
        ensures { result.now ≡ self.now }
    {
        self.text.as_str()
    }

    /// An equal text, or E01.
    pub fn copy(&self, alloc: Global) -> Result<RawText, AllocError>
        ensures { IfOk result (λ t. t ≡ self.now) }
    {
        RawText::new(alloc, self.text.as_str())
    }

    /// Whether it is this text.
    pub fn is(&self, other: &RawText) -> bool
        ensures same { IsTrue result ↔ (self.now ≡ other.now) }
        ensures test { result ≡ bytes_eq self.now other.now }
    {
        self.text.as_str() == other.text.as_str()
    }
}
