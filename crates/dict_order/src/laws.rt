// Laws of ranks: in every graph, and in the graph of every dictionary. Each function's contract is a law.
ghost use Rattle.dict_order.specs.DictionaryLaws.{DictHasNoCycle, DictMentionsFacts, DictRanksFall, GraphIsOfMentions, WrittenRanksAreAnswered};
ghost use Rattle.dict_order.specs.Laws.{RankIsOneMore, RankOfNoneIsZero, RanksAreOnly, RanksAreSmall, RanksExcludeCycles, RanksExist, RanksFall, RanksFallAlong, TestTellsRanks, TestedListIsRanks};

/// Facts have ranks exactly where none reaches itself, and they have them once.
pub fn ranks_exist_where_no_fact_reaches_itself()
    ensures exist { RanksExist }
    ensures only { RanksAreOnly }
{}

/// A fact's rank is above that of each fact that it mentions or reaches, so none reaches itself.
pub fn ranks_fall_along_mentions()
    ensures mentions { RanksFall }
    ensures reaches { RanksFallAlong }
    ensures no_cycle { RanksExcludeCycles }
{}

/// A rank is 0 for a fact that mentions nothing, and else 1 more than the greatest that it mentions.
/// None is above the number of facts.
pub fn a_rank_is_one_more_than_the_greatest()
    ensures none { RankOfNoneIsZero }
    ensures one_more { RankIsOneMore }
    ensures small { RanksAreSmall }
{}

/// The test of a written list computes. Where it is true no fact reaches itself, and the list is the
/// ranks.
pub fn a_written_list_is_tested()
    ensures tells { TestTellsRanks }
    ensures ranks { TestedListIsRanks }
{}

/// The graph of a dictionary has what each fact mentions, and only facts are mentioned.
pub fn a_dictionary_mentions_its_facts()
    ensures graph { GraphIsOfMentions }
    ensures within { DictMentionsFacts }
{}

/// Where the facts of a dictionary have ranks, each is above those of all that the fact mentions, and
/// no fact reaches itself.
pub fn ranks_of_a_dictionary_fall()
    ensures mentions { DictRanksFall }
    ensures no_cycle { DictHasNoCycle }
{}

/// A list that is written for a dictionary and passes the test, which computes, excludes a cycle and is
/// the ranks. So [`crate::order`] answers it, if there is memory.
pub fn written_ranks_of_a_dictionary()
    ensures { WrittenRanksAreAnswered }
{}
