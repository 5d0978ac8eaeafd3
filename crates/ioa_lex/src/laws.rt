//! Laws of what the tokens of a text are. The functions do nothing: what they say is in their contracts.

ghost use Rattle.std.specs.Prelude.{◌≡◌, ◌++◌, ◌∷◌, [], ℕ, List, map, IsTrue};
ghost use Rattle.ioa_value.specs.declared.terminal.Terminal.{Terminal};
ghost use Rattle.ioa_value.specs.Spelling.{spelling_of};
ghost use Rattle.ioa_lex.specs.declared.token.Token.{Token};
ghost use Rattle.ioa_lex.specs.Tokens.{Tok, tokens_shown};
ghost use Rattle.ioa_lex.specs.Lexing.{Lexes, StopsOn, Writes, is_blank, placed};
ghost use Rattle.ioa_lex.specs.Spaced.{Spaced, IsToken, text_of};

/// A text has one list of tokens, or it stops on one line.
pub fn one_answer()
    ensures tokens { (text : List ℕ) (ts us : List (Tok × ℕ)) → Lexes text ts → Lexes text us → ts ≡ us }
    ensures stop { (text : List ℕ) (m n : ℕ) → StopsOn text m → StopsOn text n → m ≡ n }
    ensures apart { (text : List ℕ) (ts : List (Tok × ℕ)) (line : ℕ) → Lexes text ts → ¬ (StopsOn text line) }
{}

/// The tokens of a text without their lines are those that a grammar speaks of.
pub fn tokens_alone()
    ensures { (ts : List Token) → map (λ u. u.0) (placed ts) ≡ tokens_shown ts }
{}

/// Reserved words and signs are written in different ways, and a text is written for one token at most.
pub fn written_once()
    ensures spelling { (t u : Terminal) → spelling_of t ≡ spelling_of u → t ≡ u }
    ensures token { (w : List ℕ) (t u : Tok) → Writes w t → Writes w u → t ≡ u }
{}

/// Tokens that are written with a blank after each lex to themselves, and such texts can be joined.
pub fn spaced_tokens()
    ensures lexed { (ts : List Tok) (text : List ℕ) → Spaced ts text → (us : List (Tok × ℕ)) × Lexes text us × (map (λ u. u.0) us ≡ ts) }
    ensures joined { (ts us : List Tok) (a b : List ℕ) → Spaced ts a → Spaced us b → Spaced (ts ++ us) (a ++ b) }
    ensures one { (t : Tok) (b : ℕ) → IsToken t → IsTrue (is_blank b) → Spaced (t ∷ []) (text_of t ++ b ∷ []) }
{}
