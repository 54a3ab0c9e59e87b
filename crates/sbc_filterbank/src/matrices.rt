// The sum of products that the folded sums of both directions are made of.
ghost use Rattle.std.specs.Prelude.{◌≡◌, ◌≤◌, ◌^◌, length};
ghost use Rattle.laws.specs.Integers.{Within};
ghost use Rattle.laws.specs.Sums.{sum_z};
ghost use Rattle.sbc_filterbank.specs.Matrices.{product_of};

// Cosines of a matrix times as many values, at most four. The values' bound keeps the sum in an i64.
pub fn products(cosines: &[i32], values: &[i32]) -> i64
    requires lengths { (length cosines.now ≡ length values.now) × (length values.now ≤ 4) }
    requires small { (Within (2 ^ 30) cosines.now) × (Within (2 ^ 30) values.now) }
    ensures { result ≡ sum_z (length cosines.now) (product_of cosines.now values.now) }
{
    let mut sum = 0i64;
    for (cosine, value) in cosines.iter().zip(values) {
        sum = laws::multiply_add(sum, *cosine, *value);
    }
    sum
}
