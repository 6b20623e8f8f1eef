// The thirteen tags: how many operands are children, how many are used, what each child binds, and what a neutral term
// looks like.
ghost use Rattle.std.specs.Prelude.{◌≡◌, ◌≤◌, ◌<◌};
ghost use Rattle.terms.specs.Tag.{tag_of, tag_meant, Decodes, arity as arity_of, used as used_of, binders as binders_at};
ghost use Rattle.terms.specs.Table.{limit as limit_of};
ghost use Rattle.terms.specs.Recognition.{heads_neutral, scrutinised as scrutinised_at};

// In the format's numbering, from 1.
#[derive(Clone, Copy, Debug, PartialEq, Eq)]
pub enum Tag {
    Var,
    Univ,
    Pi,
    Lam,
    App,
    Sigma,
    Pair,
    First,
    Second,
    Nat,
    Zero,
    Succ,
    Ind,
}

// A word that is no tag.
#[derive(Clone, Copy, Debug, PartialEq, Eq)]
pub struct NoTag;

// By tag: how many operands are children. A `match` compiles to a jump at each row of a walk, and so do the binders.
const ARITY: [u8; 13] = [0, 0, 2, 1, 2, 2, 2, 1, 1, 0, 0, 1, 4];

// How many variables each operand binds; the first number of a row is the tag's own place.
const BINDERS: [[u8; 5]; 13] = [
    // variable
    [0, 0, 0, 0, 0],
    // universe
    [0, 0, 0, 0, 0],
    // Pi(A, B)
    [0, 0, 1, 0, 0],
    // lambda(b)
    [0, 1, 0, 0, 0],
    // application(b, a)
    [0, 0, 0, 0, 0],
    // Sigma(A, B)
    [0, 0, 1, 0, 0],
    // pair(a, b)
    [0, 0, 0, 0, 0],
    // first(a)
    [0, 0, 0, 0, 0],
    // second(a)
    [0, 0, 0, 0, 0],
    // Nat
    [0, 0, 0, 0, 0],
    // zero
    [0, 0, 0, 0, 0],
    // succ(a)
    [0, 0, 0, 0, 0],
    // ind(P, a, b, c)
    [0, 1, 0, 0, 2],
];

impl TryFrom<usize> for Tag {
    type Error = NoTag;

    ghost try_from_gives = { Decodes };

    #[tactic(auto, unfolding(crate::specs::Tag::tag_of))]
    fn try_from(word: usize) -> Result<Tag, NoTag> {
        if word == 0 || 13 < word {
            return Err(NoTag);
        }
        Ok(Tag::of_word(word))
    }
}

impl Tag {
    // The tag of a word that is one. A walk reads a tag at each row, and `unwrap` behind `try_from` would test it.
    #[tactic(auto, unfolding(crate::specs::Tag::tag_of))]
    pub fn of_word(word: usize) -> Tag
        requires { (1 ≤ word) × (word ≤ 13) }
        ensures { tag_meant result ≡ tag_of word }
    {
        match word {
            1 => Tag::Var,
            2 => Tag::Univ,
            3 => Tag::Pi,
            4 => Tag::Lam,
            5 => Tag::App,
            6 => Tag::Sigma,
            7 => Tag::Pair,
            8 => Tag::First,
            9 => Tag::Second,
            10 => Tag::Nat,
            11 => Tag::Zero,
            12 => Tag::Succ,
            _ => Tag::Ind,
        }
    }

    // How many operands are children: they stand first.
    #[tactic(auto, unfolding(crate::specs::Tag::arity))]
    pub fn arity(self) -> usize
        ensures value { result ≡ arity_of (tag_meant self) }
        ensures range { result ≤ 4 }
    {
        ARITY[self as usize] as usize
    }

    // How many operands are used: the children, or an index or a level.
    #[tactic(auto, unfolding(crate::specs::Tag::arity, crate::specs::Tag::used))]
    pub fn used(self) -> usize
        ensures { result ≡ used_of (tag_meant self) }
    {
        match self {
            Tag::Var | Tag::Univ => 1,
            _ => self.arity(),
        }
    }

    // How many variables the child at place `j` binds.
    #[tactic(auto, unfolding(crate::specs::Tag::binders))]
    pub fn binders(self, j: usize) -> usize
        requires { j < 5 }
        ensures value { result ≡ binders_at (tag_meant self) j }
        ensures range { result ≤ 2 }
    {
        BINDERS[self as usize][j] as usize
    }

    // What the operand at place `j` of row `n` is below.
    #[tactic(auto, unfolding(crate::specs::Table::limit, crate::specs::Table::used_limit))]
    pub fn limit(self, n: usize, j: usize) -> usize
        ensures { result ≡ limit_of (tag_meant self) n j }
    {
        if self.used() < j {
            return 1;
        }
        match self {
            Tag::Var => 4096,
            Tag::Univ => 1024,
            _ => n,
        }
    }

    // Can a term with this tag be neutral?
    #[tactic(auto, unfolding(crate::specs::Recognition::heads_neutral))]
    pub fn heads_neutral(self) -> bool
        ensures { result ≡ heads_neutral (tag_meant self) }
    {
        matches!(
            self,
            Tag::Var | Tag::App | Tag::First | Tag::Second | Tag::Ind
        )
    }

    // The place of the child that is scrutinised. Places count from 1, and 0 says that there is none: an Option would
    // be compared twice for each child.
    #[tactic(auto, unfolding(crate::specs::Recognition::scrutinised))]
    pub fn scrutinised(self) -> usize
        ensures { result ≡ scrutinised_at (tag_meant self) }
    {
        match self {
            Tag::App | Tag::First | Tag::Second => 1,
            Tag::Ind => 2,
            _ => 0,
        }
    }
}
