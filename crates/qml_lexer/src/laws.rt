//! Laws of the definitions, each as the contract of a call that does nothing.

ghost use Rattle.std.specs.Prelude.{◌≡◌, ◌++◌, ℕ, List, false};
ghost use Rattle.qml_base.specs.declared.numbers.Place.{Place};
ghost use Rattle.qml_syntax.specs.declared.token.Token.{Token};
ghost use Rattle.qml_lexer.specs.declared.fault.LexCause.{LexCause};
ghost use Rattle.qml_lexer.specs.Lex.{IsLexed, IsRefused};
ghost use Rattle.qml_lexer.specs.Spells.{begins_comment, Fits, IsToken};
ghost use Rattle.qml_syntax.specs.declared.token.TokenKind.{TokenKind};

/// At most one token list reads given bytes.
pub fn one_list_reads()
    ensures { (bytes : List ℕ) (tokens others : List Token) →
        IsLexed bytes tokens → IsLexed bytes others → tokens ≡ others }
{}

/// No token list reads bytes that are refused.
pub fn none_reads_what_is_refused()
    ensures { (bytes : List ℕ) (tokens : List Token) (place : Place) (cause : LexCause) →
        IsLexed bytes tokens → ¬ (IsRefused bytes place cause) }
{}

/// Bytes are refused at one place, with one cause.
pub fn refused_in_one_way()
    ensures { (bytes : List ℕ) (place other : Place) (cause reason : LexCause) →
        IsRefused bytes place cause → IsRefused bytes other reason → (place ≡ other) × (cause ≡ reason) }
{}

/// Where some characters can be a token and no comment begins, a token is taken: the longest that can be one.
pub fn longest_token_is_taken()
    ensures { (v more : List ℕ) (other : TokenKind) → Fits v other more → begins_comment (v ++ more) ≡ false →
        (w : List ℕ) × (rest : List ℕ) × (what : TokenKind) × (v ++ more ≡ w ++ rest) × IsToken w what rest }
{}
