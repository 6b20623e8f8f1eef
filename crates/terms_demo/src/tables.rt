// The term tables of the tests. A row is five words, the tag and four operands, each low byte first.
ghost use Rattle.std.specs.Prelude.{◌≡◌, ◌*◌, ◌<◌, length, set};
ghost use Rattle.terms.specs.Table.{TermTable};
ghost use Rattle.terms_demo.specs.Tables.{Filled};

// 43 rows; `v0` stands for the variable 0, and so on, and a bare number for the row of that number.
pub const TABLE: [[u8; 10]; 43] = [
    // 0: Nat
    [10, 0, 0, 0, 0, 0, 0, 0, 0, 0],
    // 1: U_3
    [2, 0, 3, 0, 0, 0, 0, 0, 0, 0],
    // 2: v0
    [1, 0, 0, 0, 0, 0, 0, 0, 0, 0],
    // 3: v1
    [1, 0, 1, 0, 0, 0, 0, 0, 0, 0],
    // 4: v2
    [1, 0, 2, 0, 0, 0, 0, 0, 0, 0],
    // 5: v3
    [1, 0, 3, 0, 0, 0, 0, 0, 0, 0],
    // 6: v4
    [1, 0, 4, 0, 0, 0, 0, 0, 0, 0],
    // 7: zero
    [11, 0, 0, 0, 0, 0, 0, 0, 0, 0],
    // 8: lambda(v0)
    [4, 0, 2, 0, 0, 0, 0, 0, 0, 0],
    // 9: lambda(v1)
    [4, 0, 3, 0, 0, 0, 0, 0, 0, 0],
    // 10: lambda(v2)
    [4, 0, 4, 0, 0, 0, 0, 0, 0, 0],
    // 11: lambda(v3)
    [4, 0, 5, 0, 0, 0, 0, 0, 0, 0],
    // 12: Pi(v0, v0)
    [3, 0, 2, 0, 2, 0, 0, 0, 0, 0],
    // 13: Pi(v1, v0)
    [3, 0, 3, 0, 2, 0, 0, 0, 0, 0],
    // 14: Sigma(Nat, v1)
    [6, 0, 0, 0, 3, 0, 0, 0, 0, 0],
    // 15: Sigma(Nat, v0)
    [6, 0, 0, 0, 2, 0, 0, 0, 0, 0],
    // 16: Sigma(Nat, v2)
    [6, 0, 0, 0, 4, 0, 0, 0, 0, 0],
    // 17: Sigma(Nat, zero)
    [6, 0, 0, 0, 7, 0, 0, 0, 0, 0],
    // 18: first(v1)
    [8, 0, 3, 0, 0, 0, 0, 0, 0, 0],
    // 19: Sigma(Nat, first(v1))
    [6, 0, 0, 0, 18, 0, 0, 0, 0, 0],
    // 20: succ(v2)
    [12, 0, 4, 0, 0, 0, 0, 0, 0, 0],
    // 21: Sigma(Nat, succ(v2))
    [6, 0, 0, 0, 20, 0, 0, 0, 0, 0],
    // 22: pair(zero, v0)
    [7, 0, 7, 0, 2, 0, 0, 0, 0, 0],
    // 23: second(pair(zero, v0))
    [9, 0, 22, 0, 0, 0, 0, 0, 0, 0],
    // 24: application(v1, v2)
    [5, 0, 3, 0, 4, 0, 0, 0, 0, 0],
    // 25: application(24, v3)
    [5, 0, 24, 0, 5, 0, 0, 0, 0, 0],
    // 26: lambda(25), the c of E-INDSUC: under the lambda y is v1, x is v2 and the nearest outer variable is v3
    [4, 0, 25, 0, 0, 0, 0, 0, 0, 0],
    // 27: application(24, v4)
    [5, 0, 24, 0, 6, 0, 0, 0, 0, 0],
    // 28: lambda(27), which is 26 raised by 1 under its two binders
    [4, 0, 27, 0, 0, 0, 0, 0, 0, 0],
    // 29: ind(v2, v1, v2, 28), which is ind(v1, v0, v1, 26) raised by 1
    [13, 0, 4, 0, 3, 0, 4, 0, 28, 0],
    // 30: application(29, v1)
    [5, 0, 29, 0, 3, 0, 0, 0, 0, 0],
    // 31: application(30, v1)
    [5, 0, 30, 0, 3, 0, 0, 0, 0, 0],
    // 32: lambda(31), which is 26 with ind(v1, v0, v1, 26) for y, v0 for x, and the outer variables lowered by 2
    [4, 0, 31, 0, 0, 0, 0, 0, 0, 0],
    // 33: application(v1, 29)
    [5, 0, 3, 0, 29, 0, 0, 0, 0, 0],
    // 34: application(33, v1)
    [5, 0, 33, 0, 3, 0, 0, 0, 0, 0],
    // 35: lambda(34), the same with what x and y take exchanged
    [4, 0, 34, 0, 0, 0, 0, 0, 0, 0],
    // 36: ind(v2, v1, v1, 28), which is 29 where x was replaced in it too
    [13, 0, 4, 0, 3, 0, 3, 0, 28, 0],
    // 37: application(36, v1)
    [5, 0, 36, 0, 3, 0, 0, 0, 0, 0],
    // 38: application(37, v1)
    [5, 0, 37, 0, 3, 0, 0, 0, 0, 0],
    // 39: lambda(38), the same with y replaced first and x in what came out
    [4, 0, 38, 0, 0, 0, 0, 0, 0, 0],
    // 40: ind(12, v1, v1, 28), which is ind(12, v0, v0, 26) raised by 1: v0 in Pi(v0, v0) is P's own variable
    [13, 0, 12, 0, 3, 0, 3, 0, 28, 0],
    // 41: lambda(40)
    [4, 0, 40, 0, 0, 0, 0, 0, 0, 0],
    // 42: U_4
    [2, 0, 4, 0, 0, 0, 0, 0, 0, 0],
];

// Six rows: no zero, no first, no succ and no ind is among them.
pub const BARE: [[u8; 10]; 6] = [
    // 0: Nat
    [10, 0, 0, 0, 0, 0, 0, 0, 0, 0],
    // 1: v0
    [1, 0, 0, 0, 0, 0, 0, 0, 0, 0],
    // 2: v1
    [1, 0, 1, 0, 0, 0, 0, 0, 0, 0],
    // 3: v2
    [1, 0, 2, 0, 0, 0, 0, 0, 0, 0],
    // 4: lambda(v0)
    [4, 0, 1, 0, 0, 0, 0, 0, 0, 0],
    // 5: Pi(Nat, v2)
    [3, 0, 0, 0, 3, 0, 0, 0, 0, 0],
];

// From Nat on, each next row is application(k - 1, k - 1): row 15 has size 65,535, and row 16 is over the limit.
pub const DOUBLING: [[u8; 10]; 17] = [
    [10, 0, 0, 0, 0, 0, 0, 0, 0, 0],
    [5, 0, 0, 0, 0, 0, 0, 0, 0, 0],
    [5, 0, 1, 0, 1, 0, 0, 0, 0, 0],
    [5, 0, 2, 0, 2, 0, 0, 0, 0, 0],
    [5, 0, 3, 0, 3, 0, 0, 0, 0, 0],
    [5, 0, 4, 0, 4, 0, 0, 0, 0, 0],
    [5, 0, 5, 0, 5, 0, 0, 0, 0, 0],
    [5, 0, 6, 0, 6, 0, 0, 0, 0, 0],
    [5, 0, 7, 0, 7, 0, 0, 0, 0, 0],
    [5, 0, 8, 0, 8, 0, 0, 0, 0, 0],
    [5, 0, 9, 0, 9, 0, 0, 0, 0, 0],
    [5, 0, 10, 0, 10, 0, 0, 0, 0, 0],
    [5, 0, 11, 0, 11, 0, 0, 0, 0, 0],
    [5, 0, 12, 0, 12, 0, 0, 0, 0, 0],
    [5, 0, 13, 0, 13, 0, 0, 0, 0, 0],
    [5, 0, 14, 0, 14, 0, 0, 0, 0, 0],
    [5, 0, 15, 0, 15, 0, 0, 0, 0, 0],
];

// The bytes of a table of `N` rows, which its check found well-formed.
#[derive(Clone, Copy)]
pub struct SoundTable<'a, const N: usize> {
    pub rows: &'a [u8],
    ghost sound: { TermTable rows.now N },
}

// The bytes of the rows, one row behind the other.
pub fn fill(rows: &[[u8; 10]], out: &mut [u8])
    requires { length out.old ≡ 10 * length rows.now }
    ensures { Filled rows.now out.new (length out.old) }
{
    for i in 0..out.len() {
        out[i] = rows[i / 10][i % 10];
    }
}

// Byte `at` made `value`.
pub fn change(out: &mut [u8], at: usize, value: u8)
    requires { at < length out.old }
    ensures { out.new ≡ set out.old at value }
{
    out[at] = value;
}
