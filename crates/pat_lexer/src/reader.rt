// The reader behind the lexer: it reads a text from its front, and keeps what is unfinished.
ghost use Rattle.std.specs.Prelude.{◌≡◌, ◌≢◌, ◌+◌, ◌<◌, ◌≤◌, ◌^◌, ◌==◌, ◌||◌, ℕ, List, [], ◌∷◌, map, length, slice_index, true, false, IfOk, IfErr};
ghost use Rattle.pat_lexer_spec.specs.Characters.{is_blank, is_digit, is_in_line};
ghost use Rattle.pat_syntax.specs.Views.{kind_view, token_view};
ghost use Rattle.pat_lexer.specs.fronts.Bytes.{is_name_start, is_name_byte, is_plain_ascii, is_other, IsRunOf};

use super::error::LexError;
use super::unfinished::Unfinished;
use crate::fronts::{
    Front, blank_run, comment_run, digit_run, front_of, is_escapable, is_name_byte, mark_of,
    name_run, name_token, number_with, plain_run,
};
use pat_sequences::Text;
use pat_syntax::{Mark, Span, Token, TokenKind};
use std::alloc::Global;
use unicode_ident::{is_xid_continue, is_xid_start};

/// What was read so far.
#[derive(Drop)]
pub struct Reader {
    alloc: Global,
    /// The tokens that are whole.
    pub whole: Vec<Token>,
    pub unfinished: Unfinished,
    /// Where the unfinished piece begins, and otherwise the position.
    pub start: u32,
    /// The number of bytes read.
    pub position: u32,
    /// The bytes of the unfinished piece, in a comment those of an unfinished character alone.
    pub held: Vec<u8>,
    /// The bytes of an unfinished character, which end the bytes held.
    pub character: Vec<u8>,
    /// Where the unfinished character begins.
    pub character_start: u32,
    /// The value of the unfinished integer.
    pub number: u64,
    /// The bytes that the unfinished string stands for.
    pub text: Vec<u8>,
    ghost narrow: { number ≤ 9223372036854775807 },
}

impl Reader {
    ghost use Rattle.pat_lexer.specs.Ends.{ends};
    ghost use Rattle.pat_lexer.specs.Changes.{with_token, with_piece, with_held};
    ghost use Rattle.pat_lexer.specs.Progress.{Stands};
    ghost use Rattle.pat_lexer_spec.specs.Divisions.{Divides};
    ghost use Rattle.pat_lexer.specs.Explains.{Explains};
    ghost use Rattle.pat_lexer.specs.Reads.{refusal_of, progress, Reads, Refuses, Advances, Closes, ClosesNot, StandsAtStart, MayGoOn, Takes, TakesNot, Extends, OpensWith, Completes};

    pub fn new(alloc: Global) -> Reader
        ensures position { result.position ≡ 0 }
        ensures stands { StandsAtStart result }
    {
        Reader {
            alloc,
            whole: Vec::new(alloc),
            unfinished: Unfinished::Nothing,
            start: 0,
            position: 0,
            held: Vec::new(alloc),
            character: Vec::new(alloc),
            character_start: 0,
            number: 0,
            text: Vec::new(alloc),
        }
    }

    /// Reads a piece of the text.
    pub fn read(&mut self, piece: &[u8]) -> Result<(), LexError>
        requires { self.old.position + length piece.now < 2 ^ 32 }
        ensures position { IfOk result (λ _. self.new.position ≡ self.old.position + length piece.now) }
        ensures read { IfOk result (λ _. Reads self.old self.new piece.now (length piece.now)) }
        ensures refused { IfErr result (λ e. Refuses self.old piece.now e) }
    {
        let mut at = 0;
        while at < piece.len() {
            at += self.advance(&piece[at..])?;
        }
        Ok(())
    }

    /// Reads some bytes, at least one, and answers how many.
    fn advance(&mut self, text: &[u8]) -> Result<usize, LexError>
        requires some { 0 < length text.now }
        requires room { self.old.position + length text.now < 2 ^ 32 }
        ensures { Advances self.old self.new text.now result }
    {
        if !self.character.is_empty() {
            return self.read_character(text);
        }
        self.settle(text)?;
        self.read_on(text)
    }

    /// Ends what is unfinished where the next byte does.
    #[inline(always)]
    fn settle(&mut self, text: &[u8]) -> Result<(), LexError>
        requires some { 0 < length text.now }
        requires characters { self.old.character.items ≡ [] }
        ensures goes_on { IfOk result (λ _. ends self.new.unfinished (slice_index text.now 0) ≡ false) }
        ensures characters { IfOk result (λ _. self.new.character.items ≡ []) }
        ensures position { IfOk result (λ _. self.new.position ≡ self.old.position) }
        ensures read { IfOk result (λ _. Reads self.old self.new text.now 0) }
        ensures refused { IfErr result (λ e. Refuses self.old text.now e) }
    {
        if !self.is_ended_by(text[0]) {
            return Ok(());
        }
        self.close()
    }

    /// Whether the byte isn't part of what is unfinished, and ends it.
    #[inline(always)]
    fn is_ended_by(&self, byte: u8) -> bool
        ensures { result ≡ ends self.now.unfinished byte }
    {
        match self.unfinished {
            Unfinished::Name => byte < 128 && !is_name_byte(byte),
            Unfinished::Integer => !byte.is_ascii_digit(),
            Unfinished::Equals => byte != b'=',
            Unfinished::Minus => byte != b'>',
            Unfinished::Comment => byte == b'\n',
            _ => false,
        }
    }

    /// Ends what is unfinished.
    fn close(&mut self) -> Result<(), LexError>
        requires characters { self.old.character.items ≡ [] }
        ensures ended { IfOk result (λ _. self.new.unfinished ≡ Unfinished.Nothing) }
        ensures characters { IfOk result (λ _. self.new.character.items ≡ []) }
        ensures position { IfOk result (λ _. self.new.position ≡ self.old.position) }
        ensures closed { IfOk result (λ _. Closes self.old self.new) }
        ensures refused { IfErr result (λ e. ClosesNot self.old e) }
    {
        match self.unfinished {
            Unfinished::Nothing => Ok(()),
            Unfinished::Name => self.close_name(),
            Unfinished::Integer => self.push(TokenKind::Integer(self.number as i64)),
            Unfinished::Equals => self.push(TokenKind::Mark(Mark::Equals)),
            Unfinished::Minus => self.push(TokenKind::Mark(Mark::Minus)),
            Unfinished::Comment => {
                self.unfinished = Unfinished::Nothing;
                self.start = self.position;
                Ok(())
            }
            Unfinished::Str => Err(LexError::BadToken(self.start)),
            Unfinished::Escape => Err(LexError::BadToken(self.start)),
            Unfinished::Slash => Err(LexError::BadToken(self.start)),
        }
    }

    fn close_name(&mut self) -> Result<(), LexError>
        requires kind { self.old.unfinished ≡ Unfinished.Name }
        requires characters { self.old.character.items ≡ [] }
        ensures ended { IfOk result (λ _. self.new.unfinished ≡ Unfinished.Nothing) }
        ensures characters { IfOk result (λ _. self.new.character.items ≡ []) }
        ensures position { IfOk result (λ _. self.new.position ≡ self.old.position) }
        ensures closed { IfOk result (λ _. Closes self.old self.new) }
        ensures refused { IfErr result (λ e. ClosesNot self.old e) }
    {
        let kind = name_token(self.alloc, self.held.as_slice())?;
        self.push(kind)
    }

    /// Ends the unfinished piece with a token.
    #[inline(always)]
    fn push(&mut self, kind: TokenKind) -> Result<(), LexError>
        ensures ended { IfOk result (λ _. self.new.unfinished ≡ Unfinished.Nothing) }
        ensures position { IfOk result (λ _. self.new.position ≡ self.old.position) }
        ensures pushed { IfOk result (λ _. progress self.new ≡ with_token (progress self.old) (kind_view kind)) }
        ensures memory { IfErr result (λ e. e ≡ LexError.NoMemory) }
    {
        let span = Span {
            from: self.start,
            to: self.position,
        };
        self.whole.push(Token { kind, span })?;
        self.unfinished = Unfinished::Nothing;
        self.start = self.position;
        self.held.clear();
        Ok(())
    }

    /// Holds more bytes of the unfinished piece.
    #[inline(always)]
    fn hold(&mut self, bytes: &[u8]) -> Result<(), LexError>
        requires { self.old.position + length bytes.now < 2 ^ 32 }
        ensures held { IfOk result (λ _. progress self.new ≡ with_held (progress self.old) bytes.now) }
        ensures position { IfOk result (λ _. self.new.position ≡ self.old.position + length bytes.now) }
        ensures memory { IfErr result (λ e. e ≡ LexError.NoMemory) }
    {
        self.held.extend_from_slice(bytes)?;
        self.position += bytes.len() as u32;
        Ok(())
    }

    /// Begins a piece that isn't whole at its first bytes.
    #[inline(always)]
    fn open(&mut self, unfinished: Unfinished, bytes: &[u8]) -> Result<(), LexError>
        requires { self.old.position + length bytes.now < 2 ^ 32 }
        ensures opened { IfOk result (λ _. progress self.new ≡ with_piece (progress self.old) unfinished bytes.now) }
        ensures position { IfOk result (λ _. self.new.position ≡ self.old.position + length bytes.now) }
        ensures memory { IfErr result (λ e. e ≡ LexError.NoMemory) }
    {
        self.start = self.position;
        self.unfinished = unfinished;
        self.hold(bytes)
    }

    /// Reads some bytes that don't end what is unfinished.
    #[inline(always)]
    fn read_on(&mut self, text: &[u8]) -> Result<usize, LexError>
        requires goes_on { ends self.old.unfinished (slice_index text.now 0) ≡ false }
        requires some { 0 < length text.now }
        requires room { self.old.position + length text.now < 2 ^ 32 }
        requires characters { self.old.character.items ≡ [] }
        ensures { Advances self.old self.new text.now result }
    {
        match self.unfinished {
            Unfinished::Nothing => self.read_between(text),
            Unfinished::Name => self.read_name(text),
            Unfinished::Integer => self.read_integer(text),
            Unfinished::Str => self.read_string(text),
            Unfinished::Escape => self.read_escape(text),
            Unfinished::Equals => self.read_second(Mark::DoubleEquals, text),
            Unfinished::Minus => self.read_second(Mark::Arrow, text),
            Unfinished::Slash => self.read_slash(text),
            Unfinished::Comment => self.read_comment(text),
        }
    }

    /// Reads at a place where a piece begins.
    #[inline(always)]
    fn read_between(&mut self, text: &[u8]) -> Result<usize, LexError>
        requires some { 0 < length text.now }
        requires room { self.old.position + length text.now < 2 ^ 32 }
        requires kind { self.old.unfinished ≡ Unfinished.Nothing }
        requires characters { self.old.character.items ≡ [] }
        ensures { Advances self.old self.new text.now result }
    {
        match text[0] {
            b'a'..=b'z' | b'A'..=b'Z' | b'_' => self.read_first_name(text),
            b' ' | b'\t' | b'\r' | b'\n' => self.read_blanks(text),
            b'0'..=b'9' => self.open_integer(text),
            b'"' => self.open_at(Unfinished::Str, text),
            b'/' => self.open_at(Unfinished::Slash, text),
            b'=' => self.open_at(Unfinished::Equals, text),
            b'-' => self.open_at(Unfinished::Minus, text),
            128.. => self.read_character(text),
            _ => self.read_mark(text),
        }
    }

    #[inline(always)]
    fn read_blanks(&mut self, text: &[u8]) -> Result<usize, LexError>
        requires blank { is_blank (slice_index text.now 0) ≡ true }
        requires some { 0 < length text.now }
        requires room { self.old.position + length text.now < 2 ^ 32 }
        requires kind { self.old.unfinished ≡ Unfinished.Nothing }
        requires characters { self.old.character.items ≡ [] }
        ensures { Advances self.old self.new text.now result }
    {
        let n = blank_run(text);
        self.position += n as u32;
        self.start = self.position;
        Ok(n)
    }

    /// Reads a name or a word from its first byte on.
    #[inline(always)]
    fn read_first_name(&mut self, text: &[u8]) -> Result<usize, LexError>
        requires start { is_name_start (slice_index text.now 0) ≡ true }
        requires some { 0 < length text.now }
        requires room { self.old.position + length text.now < 2 ^ 32 }
        requires kind { self.old.unfinished ≡ Unfinished.Nothing }
        requires characters { self.old.character.items ≡ [] }
        ensures { Advances self.old self.new text.now result }
    {
        let n = name_run(text);
        let is_whole = n < text.len() && text[n] < 128;
        if is_whole {
            self.read_whole_name(text, n)?;
        } else {
            self.open(Unfinished::Name, &text[..n])?;
        }
        Ok(n)
    }

    /// Reads a mark of one byte that no other byte makes longer.
    #[inline(always)]
    fn read_mark(&mut self, text: &[u8]) -> Result<usize, LexError>
        requires other { is_other (slice_index text.now 0) ≡ true }
        requires some { 0 < length text.now }
        requires room { self.old.position + length text.now < 2 ^ 32 }
        requires kind { self.old.unfinished ≡ Unfinished.Nothing }
        requires characters { self.old.character.items ≡ [] }
        ensures { Advances self.old self.new text.now result }
    {
        match mark_of(text[0]) {
            Some(mark) => {
                self.position += 1;
                self.push(TokenKind::Mark(mark))?;
                Ok(1)
            }
            None => Err(LexError::BadToken(self.position)),
        }
    }

    /// Begins an integer at its first digit.
    fn open_integer(&mut self, text: &[u8]) -> Result<usize, LexError>
        requires digit { is_digit (slice_index text.now 0) ≡ true }
        requires some { 0 < length text.now }
        requires room { self.old.position + length text.now < 2 ^ 32 }
        requires kind { self.old.unfinished ≡ Unfinished.Nothing }
        requires characters { self.old.character.items ≡ [] }
        ensures { Advances self.old self.new text.now result }
    {
        self.number = u64::from(text[0] - b'0');
        self.open(Unfinished::Integer, &text[..1])?;
        Ok(1)
    }

    /// Begins a piece at its first byte.
    fn open_at(&mut self, unfinished: Unfinished, text: &[u8]) -> Result<usize, LexError>
        requires opens { OpensWith unfinished (slice_index text.now 0) }
        requires some { 0 < length text.now }
        requires room { self.old.position + length text.now < 2 ^ 32 }
        requires kind { self.old.unfinished ≡ Unfinished.Nothing }
        requires characters { self.old.character.items ≡ [] }
        ensures { Advances self.old self.new text.now result }
    {
        self.open(unfinished, &text[..1])?;
        Ok(1)
    }

    /// Reads a name or a word of n bytes, behind which another ASCII character stands.
    #[inline(always)]
    fn read_whole_name(&mut self, text: &[u8], n: usize) -> Result<(), LexError>
        requires start { is_name_start (slice_index text.now 0) ≡ true }
        requires run { IsRunOf is_name_byte text.now n }
        requires low { (n < length text.now) × (slice_index text.now n < 128) }
        requires some { 0 < length text.now }
        requires room { self.old.position + length text.now < 2 ^ 32 }
        requires kind { self.old.unfinished ≡ Unfinished.Nothing }
        requires characters { self.old.character.items ≡ [] }
        ensures position { IfOk result (λ _. self.new.position ≡ self.old.position + n) }
        ensures read { IfOk result (λ _. Reads self.old self.new text.now n) }
        ensures refused { IfErr result (λ e. Refuses self.old text.now e) }
    {
        let kind = name_token(self.alloc, &text[..n])?;
        self.start = self.position;
        self.position += n as u32;
        self.push(kind)
    }

    fn read_name(&mut self, text: &[u8]) -> Result<usize, LexError>
        requires goes_on { ends Unfinished.Name (slice_index text.now 0) ≡ false }
        requires some { 0 < length text.now }
        requires room { self.old.position + length text.now < 2 ^ 32 }
        requires kind { self.old.unfinished ≡ Unfinished.Name }
        requires characters { self.old.character.items ≡ [] }
        ensures { Advances self.old self.new text.now result }
    {
        let n = name_run(text);
        if n == 0 {
            return self.read_character(text);
        }
        self.hold(&text[..n])?;
        Ok(n)
    }

    fn read_integer(&mut self, text: &[u8]) -> Result<usize, LexError>
        requires goes_on { ends Unfinished.Integer (slice_index text.now 0) ≡ false }
        requires some { 0 < length text.now }
        requires room { self.old.position + length text.now < 2 ^ 32 }
        requires kind { self.old.unfinished ≡ Unfinished.Integer }
        requires characters { self.old.character.items ≡ [] }
        ensures { Advances self.old self.new text.now result }
    {
        let n = digit_run(text);
        let digits = &text[..n];
        match number_with(self.number, digits) {
            Some(number) => {
                self.number = number;
                self.hold(digits)?;
                Ok(n)
            }
            None => Err(LexError::NumberTooWide(self.start)),
        }
    }

    fn read_string(&mut self, text: &[u8]) -> Result<usize, LexError>
        requires some { 0 < length text.now }
        requires room { self.old.position + length text.now < 2 ^ 32 }
        requires kind { self.old.unfinished ≡ Unfinished.Str }
        requires characters { self.old.character.items ≡ [] }
        ensures { Advances self.old self.new text.now result }
    {
        match text[0] {
            b'"' => self.close_string(text),
            b'\\' => self.open_escape(text),
            128.. => self.read_character(text),
            0..=31 => Err(LexError::BadToken(self.start)),
            _ => self.read_plain(text),
        }
    }

    /// Reads bytes that stand for themselves in a string.
    fn read_plain(&mut self, text: &[u8]) -> Result<usize, LexError>
        requires plain { is_plain_ascii (slice_index text.now 0) ≡ true }
        requires some { 0 < length text.now }
        requires room { self.old.position + length text.now < 2 ^ 32 }
        requires kind { self.old.unfinished ≡ Unfinished.Str }
        requires characters { self.old.character.items ≡ [] }
        ensures { Advances self.old self.new text.now result }
    {
        let n = plain_run(text);
        let plain = &text[..n];
        self.text.extend_from_slice(plain)?;
        self.hold(plain)?;
        Ok(n)
    }

    fn close_string(&mut self, text: &[u8]) -> Result<usize, LexError>
        requires quote { slice_index text.now 0 ≡ 34 }
        requires some { 0 < length text.now }
        requires room { self.old.position + length text.now < 2 ^ 32 }
        requires kind { self.old.unfinished ≡ Unfinished.Str }
        requires characters { self.old.character.items ≡ [] }
        ensures { Advances self.old self.new text.now result }
    {
        let content = Text::from_slice(self.alloc, self.text.as_slice())?;
        self.text.clear();
        self.position += 1;
        self.push(TokenKind::Str(content))?;
        Ok(1)
    }

    fn open_escape(&mut self, text: &[u8]) -> Result<usize, LexError>
        requires backslash { slice_index text.now 0 ≡ 92 }
        requires some { 0 < length text.now }
        requires room { self.old.position + length text.now < 2 ^ 32 }
        requires kind { self.old.unfinished ≡ Unfinished.Str }
        requires characters { self.old.character.items ≡ [] }
        ensures { Advances self.old self.new text.now result }
    {
        self.hold(&text[..1])?;
        self.unfinished = Unfinished::Escape;
        Ok(1)
    }

    fn read_escape(&mut self, text: &[u8]) -> Result<usize, LexError>
        requires some { 0 < length text.now }
        requires room { self.old.position + length text.now < 2 ^ 32 }
        requires kind { self.old.unfinished ≡ Unfinished.Escape }
        requires characters { self.old.character.items ≡ [] }
        ensures { Advances self.old self.new text.now result }
    {
        if is_escapable(text[0]) {
            self.close_escape(text)
        } else {
            Err(LexError::BadToken(self.start))
        }
    }

    fn close_escape(&mut self, text: &[u8]) -> Result<usize, LexError>
        requires pair { (slice_index text.now 0 == 34 || slice_index text.now 0 == 92) ≡ true }
        requires some { 0 < length text.now }
        requires room { self.old.position + length text.now < 2 ^ 32 }
        requires kind { self.old.unfinished ≡ Unfinished.Escape }
        requires characters { self.old.character.items ≡ [] }
        ensures { Advances self.old self.new text.now result }
    {
        self.text.push(text[0])?;
        self.hold(&text[..1])?;
        self.unfinished = Unfinished::Str;
        Ok(1)
    }

    /// Ends a mark with its second byte.
    fn read_second(&mut self, mark: Mark, text: &[u8]) -> Result<usize, LexError>
        requires completes { Completes self.old.unfinished mark }
        requires goes_on { ends self.old.unfinished (slice_index text.now 0) ≡ false }
        requires some { 0 < length text.now }
        requires room { self.old.position + length text.now < 2 ^ 32 }
        requires characters { self.old.character.items ≡ [] }
        ensures { Advances self.old self.new text.now result }
    {
        self.position += 1;
        self.push(TokenKind::Mark(mark))?;
        Ok(1)
    }

    fn read_slash(&mut self, text: &[u8]) -> Result<usize, LexError>
        requires some { 0 < length text.now }
        requires room { self.old.position + length text.now < 2 ^ 32 }
        requires kind { self.old.unfinished ≡ Unfinished.Slash }
        requires characters { self.old.character.items ≡ [] }
        ensures { Advances self.old self.new text.now result }
    {
        if text[0] != b'/' {
            return Err(LexError::BadToken(self.start));
        }
        self.held.clear();
        self.unfinished = Unfinished::Comment;
        self.position += 1;
        Ok(1)
    }

    fn read_comment(&mut self, text: &[u8]) -> Result<usize, LexError>
        requires goes_on { ends Unfinished.Comment (slice_index text.now 0) ≡ false }
        requires some { 0 < length text.now }
        requires room { self.old.position + length text.now < 2 ^ 32 }
        requires kind { self.old.unfinished ≡ Unfinished.Comment }
        requires characters { self.old.character.items ≡ [] }
        ensures { Advances self.old self.new text.now result }
    {
        let n = comment_run(text);
        if n == 0 {
            return self.read_character(text);
        }
        self.position += n as u32;
        Ok(n)
    }

    /// Reads a byte of a character that isn't ASCII.
    fn read_character(&mut self, text: &[u8]) -> Result<usize, LexError>
        requires may { MayGoOn self.old (slice_index text.now 0) }
        requires some { 0 < length text.now }
        requires room { self.old.position + length text.now < 2 ^ 32 }
        ensures { Advances self.old self.new text.now result }
    {
        self.extend_character(text[0])?;
        let front = front_of(self.character.as_slice());
        self.take(front)?;
        Ok(1)
    }

    fn extend_character(&mut self, byte: u8) -> Result<(), LexError>
        requires may { MayGoOn self.old byte }
        requires room { self.old.position + 1 < 2 ^ 32 }
        ensures position { IfOk result (λ _. self.new.position ≡ self.old.position + 1) }
        ensures extended { IfOk result (λ _. Extends self.old self.new byte) }
        ensures memory { IfErr result (λ e. e ≡ LexError.NoMemory) }
    {
        self.character_start = self.character_place();
        self.character.push(byte)?;
        self.held.push(byte)?;
        self.position += 1;
        Ok(())
    }

    /// Where the unfinished character begins, or else the next one.
    fn character_place(&self) -> u32
        ensures fresh { self.now.character.items ≡ [] → result ≡ self.now.position }
        ensures kept { self.now.character.items ≢ [] → result ≡ self.now.character_start }
    {
        if self.character.is_empty() {
            self.position
        } else {
            self.character_start
        }
    }

    /// Adds what stands at the front of the character's bytes to what is unfinished, or refuses it.
    fn take(&mut self, front: Front) -> Result<(), LexError>
        ensures position { IfOk result (λ _. self.new.position ≡ self.old.position) }
        ensures taken { IfOk result (λ _. Takes self.old self.new front) }
        ensures refused { IfErr result (λ e. TakesNot self.old front e) }
    {
        match front {
            Front::Unfinished => Ok(()),
            Front::Bad => Err(self.refuse_character()),
            Front::Whole(character) => self.accept(character),
        }
    }

    /// Adds a whole character that isn't ASCII to what is unfinished, or refuses it.
    fn accept(&mut self, character: char) -> Result<(), LexError>
        ensures position { IfOk result (λ _. self.new.position ≡ self.old.position) }
        ensures taken { IfOk result (λ _. Takes self.old self.new (Front.Whole character)) }
        ensures refused { IfErr result (λ e. TakesNot self.old (Front.Whole character) e) }
    {
        match self.unfinished {
            Unfinished::Nothing => self.accept_first(character),
            Unfinished::Name => self.accept_in_name(character),
            Unfinished::Str => self.accept_in_string(character),
            Unfinished::Comment => self.accept_in_comment(character),
            _ => Err(self.refuse_character()),
        }
    }

    fn accept_first(&mut self, character: char) -> Result<(), LexError>
        requires kind { self.old.unfinished ≡ Unfinished.Nothing }
        ensures position { IfOk result (λ _. self.new.position ≡ self.old.position) }
        ensures taken { IfOk result (λ _. Takes self.old self.new (Front.Whole character)) }
        ensures refused { IfErr result (λ e. TakesNot self.old (Front.Whole character) e) }
    {
        if !is_xid_start(character) {
            return Err(LexError::BadToken(self.start));
        }
        self.unfinished = Unfinished::Name;
        self.character.clear();
        Ok(())
    }

    fn accept_in_name(&mut self, character: char) -> Result<(), LexError>
        requires kind { self.old.unfinished ≡ Unfinished.Name }
        ensures position { IfOk result (λ _. self.new.position ≡ self.old.position) }
        ensures taken { IfOk result (λ _. Takes self.old self.new (Front.Whole character)) }
        ensures refused { IfErr result (λ e. TakesNot self.old (Front.Whole character) e) }
    {
        if !is_xid_continue(character) {
            return Err(LexError::BadToken(self.character_start));
        }
        self.character.clear();
        Ok(())
    }

    fn accept_in_string(&mut self, character: char) -> Result<(), LexError>
        requires kind { self.old.unfinished ≡ Unfinished.Str }
        ensures position { IfOk result (λ _. self.new.position ≡ self.old.position) }
        ensures taken { IfOk result (λ _. Takes self.old self.new (Front.Whole character)) }
        ensures refused { IfErr result (λ e. TakesNot self.old (Front.Whole character) e) }
    {
        let _character = character;
        self.text.extend_from_slice(self.character.as_slice())?;
        self.character.clear();
        Ok(())
    }

    fn accept_in_comment(&mut self, character: char) -> Result<(), LexError>
        requires kind { self.old.unfinished ≡ Unfinished.Comment }
        ensures position { IfOk result (λ _. self.new.position ≡ self.old.position) }
        ensures taken { IfOk result (λ _. Takes self.old self.new (Front.Whole character)) }
        ensures refused { IfErr result (λ e. TakesNot self.old (Front.Whole character) e) }
    {
        let _character = character;
        self.held.clear();
        self.character.clear();
        Ok(())
    }

    /// The refusal of a character that doesn't fit what is unfinished.
    fn refuse_character(&self) -> LexError
        ensures { result ≡ refusal_of self.now }
    {
        match self.unfinished {
            Unfinished::Name => LexError::BadToken(self.character_start),
            _ => LexError::BadToken(self.start),
        }
    }

    /// The tokens of the text that ends here.
    pub fn finish(self) -> Result<Vec<Token>, LexError>
        ensures divided { IfOk result (λ tokens. (text : List ℕ) → Stands (progress self) text []
            → Divides text (map token_view tokens.items)) }
        ensures refused { IfErr result (λ e. (text : List ℕ) → Stands (progress self) text [] → Explains text e) }
    {
        let mut reader = self;
        if !reader.character.is_empty() {
            return Err(reader.refuse_character());
        }
        reader.close()?;
        let Reader { whole, .. } = reader;
        Ok(whole)
    }
}
