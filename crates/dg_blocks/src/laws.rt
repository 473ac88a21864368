//! Laws of operations, which callers may use. The functions do nothing.
ghost use Rattle.fx_type.specs.Laws.{FullSumIsOne, FullProductIsOne, UnionIsOne};
ghost use Rattle.fx_round.specs.Laws.{StoringGivesOne};
ghost use Rattle.dg_model.specs.GainParam.{ParamTypeIsOne};
ghost use Rattle.dg_blocks.specs.Laws.{OperationGivesAtMostOne, OperationGivesOne};

/// An operation gives at most one number, and exactly one, in the range of its result type, where
/// it may be carried out.
pub fn operation_gives_one()
    ensures at_most { OperationGivesAtMostOne }
    ensures exactly { OperationGivesOne }
{
    fx_round::conversion_gives_one();
}

/// What an operation gives, what a list parameter is stored as, and each full type is one.
pub fn each_is_one()
    ensures at_most { OperationGivesAtMostOne }
    ensures exactly { OperationGivesOne }
    ensures storing { StoringGivesOne }
    ensures sum { FullSumIsOne }
    ensures product { FullProductIsOne }
    ensures union { UnionIsOne }
    ensures param { ParamTypeIsOne }
{
    operation_gives_one();
    fx_round::storing_gives_one();
    fx_type::full_sum_is_one();
    fx_type::full_product_is_one();
    fx_type::union_is_one();
    dg_model::param_type_is_one();
}
