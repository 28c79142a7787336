//! What builtin functions, tests and the order of terms give: rows of the number, the arguments, `value` or the class
//! of an exception, and the term.

/// Rows of builtin functions.
pub(crate) const BUILTINS: &str =
    "{1,[9223372036854775807,1],error,system_limit}. {1,[-9223372036854775808,-1],error,system_limit}.
{1,[9223372036854775807,-9223372036854775808],value,-1}. {1,[2,3],value,5}. {1,[0,a],error,badarith}.
{1,[-64,9223372036854775806],value,9223372036854775742}. {1,[1,#{a=>1,b=>2}],error,badarith}.
{1,[#{},2],error,badarith}. {1,[#{a=>2,b=>1},63],error,badarith}. {1,[255,-1],value,254}. {1,[-64,1],value,-63}.
{1,[9223372036854775806,7],error,system_limit}. {1,[2,1],value,3}. {1,[9223372036854775807,255],error,system_limit}.
{1,[7,4611686018427387904],value,4611686018427387911}. {1,[255,7],value,262}.
{2,[-9223372036854775808,1],error,system_limit}. {2,[0,-9223372036854775808],error,system_limit}.
{2,[-1,9223372036854775807],value,-9223372036854775808}. {2,[0,2],value,-2}. {2,[64,#Ref<0.0>],error,badarith}.
{2,[-64,0],value,-64}. {2,[9223372036854775807,9223372036854775806],value,1}. {2,[[[1],[2,[3]]],2],error,badarith}.
{2,[1,-1],value,2}. {2,[-1,2],value,-3}. {2,[-64,1],value,-65}. {2,[64,255],value,-191}.
{2,[#{a=>2,b=>1},9223372036854775806],error,badarith}. {2,[3,-64],value,67}. {2,[-7,2],value,-9}.
{2,[fun lists:reverse/2,2],error,badarith}.
{3,[-9223372036854775808,-1],error,system_limit}. {3,[3037000500,3037000500],error,system_limit}.
{3,[3037000499,3037000499],value,9223372030926249001}. {3,[2,1],value,2}. {3,[-1,true],error,badarith}.
{3,[#{a=>1,b=>2},[50,51]],error,badarith}. {3,[-7,[49,97]],error,badarith}. {3,[-64,#{a=>1}],error,badarith}.
{3,[4611686018427387904,-64],error,system_limit}. {3,[9223372036854775806,#{b=>1}],error,badarith}.
{3,[-64,9223372036854775806],error,system_limit}. {3,[255,1],value,255}. {3,[255,-1],value,-255}.
{3,[255,0],value,0}. {3,[[3,1,2,1],3],error,badarith}. {3,[9223372036854775807,-1],value,-9223372036854775807}.
{4,[-9223372036854775808,-1],error,system_limit}. {4,[-9223372036854775808,1],value,-9223372036854775808}.
{4,[-7,2],value,-3}. {4,[7,-2],value,-3}. {4,[1,0],error,badarith}. {4,[a,0],error,badarith}.
{4,[{2,1},-1],error,badarith}. {4,[-1,#{a=>1,b=>2}],error,badarith}. {4,[64,-1],value,-64}.
{4,[-9223372036854775808,4611686018427387904],value,-2}. {4,[2,-7],value,0}.
{4,[{1,a},[true,false]],error,badarith}. {4,[64,-64],value,-1}. {4,[63,#{a=>1}],error,badarith}.
{4,[4611686018427387904,3],value,1537228672809129301}. {4,[9223372036854775806,4611686018427387904],value,1}.
{5,[-9223372036854775808,-1],value,0}. {5,[-7,2],value,-1}. {5,[7,-2],value,1}. {5,[1,0],error,badarith}.
{5,[4611686018427387904,-9223372036854775808],value,4611686018427387904}. {5,[7,9223372036854775807],value,7}.
{5,[9223372036854775807,7],value,0}. {5,[64,63],value,1}. {5,[4611686018427387904,255],value,64}.
{5,[2,-9223372036854775808],value,2}. {5,[64,-64],value,0}. {5,[2,4611686018427387904],value,2}.
{5,[4611686018427387904,63],value,4}. {5,[0,-64],value,0}. {5,[255,1],value,0}.
{5,[#{},-9223372036854775808],error,badarith}.
{6,[-1,255],value,255}. {6,[7,0],value,0}. {6,[1,#{}],error,badarith}. {6,[9223372036854775807,1],value,1}.
{6,[64,2],value,0}. {6,[-64,2],value,0}. {6,[63,4611686018427387904],value,0}. {6,[4611686018427387904,7],value,0}.
{6,[{a},2],error,badarith}. {6,[#Pid<0.0>,63],error,badarith}. {6,[-1,#Ref<0.5>],error,badarith}.
{6,[-1,[{1,x,y},z,{2},{1,w}]],error,badarith}. {6,[-1,7],value,7}. {6,[63,false],error,badarith}.
{6,[-9223372036854775808,64],value,0}. {6,[-7,-1],value,-7}.
{7,[-9223372036854775808,1],value,-9223372036854775807}. {7,[0,1],value,1}. {7,[2,a],error,badarith}.
{7,[9223372036854775807,-1],value,-1}. {7,[2,255],value,255}. {7,[7,4611686018427387904],value,4611686018427387911}.
{7,[3,9223372036854775807],value,9223372036854775807}. {7,[[{1,x,y},z,{2},{1,w}],2],error,badarith}.
{7,[9223372036854775807,-64],value,-1}. {7,[-1,9223372036854775807],value,-1}. {7,[1,[43,55]],error,badarith}.
{7,[1,-7],value,-7}. {7,[64,7],value,71}. {7,[0,7],value,7}. {7,[-1,2],value,-1}. {7,[1,1],value,1}.
{8,[-1,1],value,-2}. {8,[1,3],value,2}. {8,[1,[1,2,3]],error,badarith}.
{8,[63,-9223372036854775808],value,-9223372036854775745}. {8,[4611686018427387904,#{a=>2,b=>1}],error,badarith}.
{8,[63,3],value,60}. {8,[[43,55],9223372036854775806],error,badarith}. {8,[64,2],value,66}.
{8,[63,4611686018427387904],value,4611686018427387967}. {8,[255,[true,false]],error,badarith}.
{8,[-64,4611686018427387904],value,-4611686018427387968}. {8,[[3,1,2,1],-1],error,badarith}.
{8,[9223372036854775806,-9223372036854775808],value,-2}. {8,[7,9223372036854775806],value,9223372036854775801}.
{8,[[true,false],255],error,badarith}. {8,[-64,255],value,-193}.
{9,[1,0],value,1}. {9,[1,62],value,4611686018427387904}. {9,[1,63],error,system_limit}.
{9,[-1,63],value,-9223372036854775808}. {9,[-1,64],error,system_limit}. {9,[0,1099511627776],value,0}.
{9,[1,1099511627776],error,system_limit}. {9,[0,9223372036854775807],value,0}. {9,[5,-1],value,2}.
{9,[-1,-1099511627776],value,-1}. {9,[7,-9223372036854775808],value,0}. {9,[3,#Pid<0.0>],error,badarith}.
{9,[64,9223372036854775806],error,system_limit}. {9,[1,1],value,2}. {9,[9223372036854775807,-64],value,0}.
{9,[4611686018427387904,64],error,system_limit}.
{10,[-5,1],value,-3}. {10,[5,1],value,2}. {10,[1,63],value,0}. {10,[-1,64],value,-1}.
{10,[-9223372036854775808,63],value,-1}. {10,[-9223372036854775808,1099511627776],value,-1}.
{10,[9223372036854775807,62],value,1}. {10,[1,-62],value,4611686018427387904}. {10,[1,-63],error,system_limit}.
{10,[-1,-63],value,-9223372036854775808}. {10,[1,-9223372036854775808],error,system_limit}.
{10,[0,-9223372036854775808],value,0}. {10,[2,false],error,badarith}.
{10,[-9223372036854775808,1],value,-4611686018427387904}. {10,[-9223372036854775808,-1],error,system_limit}.
{10,[3,9223372036854775807],value,0}.
{11,[-9223372036854775808],error,system_limit}. {11,[0],value,0}. {11,[7],value,-7}.
{11,[#Pid<0.1>],error,badarith}. {11,[9223372036854775807],value,-9223372036854775807}.
{11,[[{a,1},{b,2},{a,3}]],error,badarith}. {11,[1],value,-1}. {11,[2],value,-2}. {11,[-7],value,7}.
{11,[4611686018427387904],value,-4611686018427387904}. {11,[{2,1}],error,badarith}. {11,[''],error,badarith}.
{11,[[50,51]],error,badarith}. {11,[-64],value,64}. {11,[[45,49]],error,badarith}.
{12,[-9223372036854775808],value,-9223372036854775808}. {12,[3],value,3}. {12,[#Ref<0.5>],error,badarith}.
{12,[4611686018427387904],value,4611686018427387904}. {12,[-1],value,-1}.
{12,[9223372036854775807],value,9223372036854775807}. {12,[9223372036854775806],value,9223372036854775806}.
{12,[255],value,255}. {12,[63],value,63}. {12,[-7],value,-7}. {12,[#{1=>a,a=>2}],error,badarith}. {12,[1],value,1}.
{12,[false],error,badarith}.
{13,[-9223372036854775808],value,9223372036854775807}. {13,[9223372036854775807],value,-9223372036854775808}.
{13,[#Ref<0.5>],error,badarith}. {13,[4611686018427387904],value,-4611686018427387905}.
{13,[9223372036854775806],value,-9223372036854775807}. {13,[#Pid<1.0>],error,badarith}. {13,[-64],value,63}.
{13,[3],value,-4}. {13,[7],value,-8}. {13,[-7],value,6}. {13,[2],value,-3}. {13,[-1],value,0}. {13,[0],value,-1}.
{13,[63],value,-64}. {13,[255],value,-256}. {13,[{a}],error,badarith}.
{14,[-9223372036854775808],error,system_limit}. {14,[-9223372036854775807],value,9223372036854775807}.
{14,[a],error,badarg}. {14,[0],value,0}. {14,[4611686018427387904],value,4611686018427387904}.
{14,[#{a=>1}],error,badarg}. {14,[1],value,1}. {14,[-7],value,7}. {14,[2],value,2}. {14,[63],value,63}.
{14,[[a,b|c]],error,badarg}. {14,[-64],value,64}. {14,[64],value,64}. {14,[7],value,7}. {14,[[1|2]],error,badarg}.
{14,[#{b=>1}],error,badarg}.
{15,[b,255],value,false}. {15,[2,#Pid<0.0>],value,false}. {15,[[{1,x,y},z,{2},{1,w}],[1,2]],value,false}.
{15,[#{b=>1},255],value,false}. {15,[fun m:f/0,[a,b|c]],value,false}. {15,[#Ref<0.5>,#Pid<0.0>],value,false}.
{15,[true,#Pid<1.0>],value,false}. {15,[{a,1},#{b=>1}],value,false}.
{15,[fun lists:reverse/2,fun m:f/0],value,false}. {15,[1,#{b=>1}],value,false}.
{15,[error,[{a,1},{b,2},{a,3}]],value,false}. {15,[[43,55],[1,2]],value,false}. {15,[#{},-7],value,false}.
{15,[{a,b,c},9223372036854775806],value,false}. {15,[{1,a},{2,1}],value,false}. {15,[#{b=>1},[45,49]],value,false}.
{16,[-1,b],value,true}. {16,[-64,a],value,true}. {16,[[[1],[2,[3]]],4611686018427387904],value,true}.
{16,[b,{a,1}],value,true}. {16,[#Ref<0.5>,[45,49]],value,true}. {16,[fun erlang:abs/1,[1,2]],value,true}.
{16,[#{},[{a,1},{b,2},{a,3}]],value,true}. {16,[[[1],[2,[3]]],#Pid<1.0>],value,true}.
{16,[#{b=>1},9223372036854775807],value,true}. {16,[[3,1,2,1],{}],value,true}.
{16,[#{a=>1,b=>2},[57,57,57,57,57,57,57,57,57,57,57,57,57,57,57,57,57,57,57,57]],value,true}.
{16,[#{},fun erlang:abs/1],value,true}. {16,[error,#{1=>a,a=>2}],value,true}. {16,[error,[1,2]],value,true}.
{16,[[1,2],#Pid<0.1>],value,true}. {16,[9223372036854775807,#Ref<0.5>],value,true}.
{17,[63,false],value,true}. {17,[fun m:f/0,7],value,false}. {17,[{},a],value,false}. {17,[255,[1]],value,true}.
{17,[[49,97],[{a,1},{b,2},{a,3}]],value,true}. {17,[[3,1,2,1],a],value,false}.
{17,[[[1],[2,[3]]],[1,2]],value,false}. {17,[[49,97],0],value,false}. {17,[{a},-1],value,false}.
{17,[#Ref<0.5>,{}],value,true}. {17,[[45,49],true],value,false}.
{17,[[[1],[2,[3]]],[57,57,57,57,57,57,57,57,57,57,57,57,57,57,57,57,57,57,57,57]],value,false}.
{17,[[],#{}],value,false}. {17,[9223372036854775807,#{a=>2,b=>1}],value,true}.
{17,[#{a=>2,b=>1},{2,1}],value,false}. {17,[9223372036854775806,a],value,true}.
{18,[-7,#Pid<0.1>],value,true}. {18,[error,b],value,false}. {18,[#Ref<0.0>,64],value,false}.
{18,['',#Pid<0.1>],value,true}. {18,[[43,55],[{a,1},{b,2},{a,3}]],value,true}. {18,[{1,a},{a,1}],value,true}.
{18,[#{a=>1},[45,49]],value,true}. {18,[false,{a,1}],value,true}. {18,[false,{a}],value,true}.
{18,[4611686018427387904,-9223372036854775808],value,false}. {18,[[[1],[2,[3]]],#Pid<0.0>],value,false}.
{18,[[1,2],a],value,false}. {18,[false,{1,a}],value,true}. {18,[[1|2],[1,2]],value,true}.
{18,[1,[3,1,2,1]],value,true}. {18,['',[]],value,true}.
{19,[0,2],value,false}. {19,[2,64],value,false}. {19,[63,-64],value,true}. {19,[{2,1},false],value,true}.
{19,[[{a,1},{b,2},{a,3}],[3,1,2,1]],value,true}. {19,['A b',{1,a}],value,false}. {19,[[true,false],3],value,true}.
{19,[[[1],[2,[3]]],0],value,true}. {19,[[{1,x,y},z,{2},{1,w}],#Pid<0.1>],value,true}. {19,[true,{2,1}],value,false}.
{19,[#Pid<1.0>,[]],value,false}. {19,[#Pid<0.0>,{a,b,c}],value,false}. {19,[4611686018427387904,63],value,true}.
{19,[[a,b|c],'A b'],value,true}. {19,[0,'A b'],value,false}. {19,[#Pid<1.0>,-7],value,true}.
{20,[1,63],value,false}. {20,[#Pid<0.0>,b],value,true}. {20,[#Ref<0.5>,a],value,true}. {20,['',[]],value,false}.
{20,[#{a=>1},[{1,x,y},z,{2},{1,w}]],value,false}. {20,[#Ref<0.0>,#{a=>2,b=>1}],value,false}.
{20,[-64,'A b'],value,false}. {20,[63,#Pid<1.0>],value,false}. {20,[[1],-9223372036854775808],value,true}.
{20,[#Ref<0.0>,#{a=>1}],value,false}. {20,[[1,2],[true,false]],value,false}.
{20,[true,-9223372036854775808],value,true}. {20,[9223372036854775807,[1|2]],value,false}.
{20,['A b',#{a=>2,b=>1}],value,false}. {20,[[1,2,3],[1,2]],value,true}. {20,[[a,b|c],[43,55]],value,true}.
{21,[3,7],value,false}. {21,[a,2],value,false}.
{21,[7,[57,57,57,57,57,57,57,57,57,57,57,57,57,57,57,57,57,57,57,57]],value,false}.
{21,[[1,2],#Pid<0.1>],value,false}. {21,[{2,1},1],value,false}. {21,[9223372036854775807,{a,b,c}],value,false}.
{21,[-1,[1,2]],value,false}. {21,[{},[45,49]],value,false}. {21,[{2,1},9223372036854775807],value,false}.
{21,[4611686018427387904,fun erlang:abs/1],value,false}. {21,[#{1=>a,a=>2},4611686018427387904],value,false}.
{21,[fun m:f/0,#{a=>2,b=>1}],value,false}. {21,[[50,51],{2,1}],value,false}. {21,[{1,a},[1,2]],value,false}.
{21,[false,[]],value,false}. {21,[fun m:f/0,[true,false]],value,false}.
{22,[3,64],value,true}. {22,[2,error],value,true}.
{22,[true,[57,57,57,57,57,57,57,57,57,57,57,57,57,57,57,57,57,57,57,57]],value,true}. {22,[[1],[a,b|c]],value,true}.
{22,[fun m:f/0,'A b'],value,true}. {22,[[1,2,3],-64],value,true}. {22,[#Ref<0.5>,9223372036854775806],value,true}.
{22,[[a,b|c],255],value,true}. {22,[{a},[45,49]],value,true}. {22,[[50,51],{a}],value,true}.
{22,[{1,a},#{a=>1}],value,true}. {22,['',-7],value,true}. {22,[[43,55],[1]],value,true}.
{22,[#Pid<0.0>,[3,1,2,1]],value,true}. {22,[7,fun erlang:abs/1],value,true}. {22,[b,false],value,true}.
{23,[a],error,badarg}. {23,[false],value,true}. {23,[true],value,false}. {23,[255],error,badarg}.
{23,[b],error,badarg}. {23,[[{a,1},{b,2},{a,3}]],error,badarg}.
{24,[b,a],error,badarg}. {24,[true,true],value,true}. {24,[false,true],value,false}. {24,[a,true],error,badarg}.
{24,[a,-64],error,badarg}. {24,[true,b],error,badarg}. {24,[true,a],error,badarg}.
{24,[fun erlang:abs/1,a],error,badarg}. {24,[b,#Ref<0.5>],error,badarg}. {24,[false,a],error,badarg}.
{24,[[a,b|c],a],error,badarg}. {24,[a,[1,2,3]],error,badarg}. {24,[true,4611686018427387904],error,badarg}.
{24,[b,1],error,badarg}. {24,[a,'A b'],error,badarg}. {24,[b,false],error,badarg}.
{25,[a,a],error,badarg}. {25,[true,false],value,true}. {25,[false,false],value,false}. {25,[true,a],error,badarg}.
{25,[b,-1],error,badarg}. {25,[b,fun m:f/0],error,badarg}. {25,[b,#{a=>2,b=>1}],error,badarg}.
{25,[a,false],error,badarg}. {25,[b,false],error,badarg}. {25,[#Ref<0.0>,a],error,badarg}.
{25,[false,b],error,badarg}. {25,[b,a],error,badarg}. {25,[b,#{}],error,badarg}. {25,[true,b],error,badarg}.
{25,[a,b],error,badarg}. {25,[a,{a,1}],error,badarg}.
{26,[a,b],error,badarg}. {26,[true,true],value,false}. {26,[false,false],value,false}.
{26,[true,#{b=>1}],error,badarg}. {26,[b,false],error,badarg}. {26,[a,true],error,badarg}.
{26,[false,a],error,badarg}. {26,[true,a],error,badarg}. {26,[#{b=>1},true],error,badarg}.
{26,[false,b],error,badarg}. {26,[error,false],error,badarg}. {26,[64,b],error,badarg}. {26,['',true],error,badarg}.
{26,[true,b],error,badarg}. {26,[a,false],error,badarg}. {26,[false,7],error,badarg}.
{27,[[1,2|3]],value,1}. {27,[a],error,badarg}. {27,[[1]],value,1}. {27,[[a,b|c]],value,a}.
{27,[[[1],[2,[3]]]],value,[1]}. {27,[[57,57,57,57,57,57,57,57,57,57,57,57,57,57,57,57,57,57,57,57]],value,57}.
{27,[[50,51]],value,50}. {27,[-64],error,badarg}. {27,[[]],error,badarg}. {27,[-7],error,badarg}.
{27,[[1,2]],value,1}. {27,[{1,a}],error,badarg}. {27,[[49,97]],value,49}. {27,[[1,2,3]],value,1}.
{27,[[45,49]],value,45}. {27,[[{1,x,y},z,{2},{1,w}]],value,{1,x,y}}.
{28,[[1|2]],value,2}. {28,[#Ref<0.5>],error,badarg}. {28,[[1]],value,[]}. {28,[[1,2]],value,[2]}.
{28,[[a,b|c]],value,[b|c]}. {28,[[{1,x,y},z,{2},{1,w}]],value,[z,{2},{1,w}]}. {28,[[1,2,3]],value,[2,3]}.
{28,[[49,97]],value,[97]}. {28,[[]],error,badarg}. {28,[[45,49]],value,[49]}. {28,['A b'],error,badarg}.
{28,[[3,1,2,1]],value,[1,2,1]}. {28,[[true,false]],value,[false]}.
{28,[[57,57,57,57,57,57,57,57,57,57,57,57,57,57,57,57,57,57,57,57]],value,[57,57,57,57,57,57,57,57,57,57,57,57,57,57,57,57,57,57,57]}.
{28,[[[1],[2,[3]]]],value,[[2,[3]]]}. {28,[#Pid<0.1>],error,badarg}.
{29,[[1,2|3]],error,badarg}. {29,[[1]],value,1}. {29,[[45,49]],value,2}. {29,[[{1,x,y},z,{2},{1,w}]],value,4}.
{29,[[]],value,0}. {29,[[1|2]],error,badarg}. {29,[{1,a}],error,badarg}. {29,[-64],error,badarg}.
{29,[[3,1,2,1]],value,4}. {29,[[{a,1},{b,2},{a,3}]],value,3}. {29,[0],error,badarg}. {29,[[true,false]],value,2}.
{29,[[1,2,3]],value,3}. {29,[[a,b|c]],error,badarg}. {29,[[49,97]],value,2}. {29,[[[1],[2,[3]]]],value,2}.
{30,[-1],error,badarg}. {30,[{}],value,0}. {30,[{a}],value,1}. {30,[{1,a}],value,2}. {30,[{a,b,c}],value,3}.
{30,[{2,1}],value,2}. {30,[{a,1}],value,2}. {30,[[[1],[2,[3]]]],error,badarg}.
{30,[[{1,x,y},z,{2},{1,w}]],error,badarg}.
{31,[1,{a,b}],value,a}. {31,[2,{a,b}],value,b}. {31,[0,{a,b}],error,badarg}. {31,[3,{a,b}],error,badarg}.
{31,[-1,{a,b}],error,badarg}. {31,[1,{1,a}],value,1}. {31,[1,{2,1}],value,2}. {31,[2,{}],error,badarg}.
{31,[255,{a,b,c}],error,badarg}. {31,[[1],{}],error,badarg}. {31,[-64,{a,b,c}],error,badarg}.
{31,[255,{1,a}],error,badarg}. {31,[3,{a,1}],error,badarg}. {31,[{a,1},{a}],error,badarg}. {31,[0,2],error,badarg}.
{31,[9223372036854775806,[50,51]],error,badarg}.
{32,[#{}],value,0}. {32,[#{a=>1}],value,1}. {32,[64],error,{badmap,64}}. {32,[#{a=>1,1=>x}],value,2}.
{32,[#{a=>2,b=>1}],value,2}. {32,[[45,49]],error,{badmap,[45,49]}}. {32,[#{a=>1,b=>2}],value,2}.
{32,[[{1,x,y},z,{2},{1,w}]],error,{badmap,[{1,x,y},z,{2},{1,w}]}}. {32,[{1,a}],error,{badmap,{1,a}}}.
{32,[[a,b|c]],error,{badmap,[a,b|c]}}. {32,[#{1=>a,a=>2}],value,2}. {32,[#{b=>1}],value,1}.
{32,[[{a,1},{b,2},{a,3}]],error,{badmap,[{a,1},{b,2},{a,3}]}}.
{33,[[1,2,3],3],error,{badmap,3}}. {33,[a,#{a=>1,1=>x}],value,1}. {33,[1,#{a=>1,1=>x}],value,x}.
{33,[b,#{a=>1}],error,{badkey,b}}. {33,[4611686018427387904,#{1=>a,a=>2}],error,{badkey,4611686018427387904}}.
{33,[true,#{b=>1}],error,{badkey,true}}. {33,[error,[1]],error,{badmap,[1]}}.
{33,[3,#{a=>2,b=>1}],error,{badkey,3}}. {33,[[{a,1},{b,2},{a,3}],#{}],error,{badkey,[{a,1},{b,2},{a,3}]}}.
{33,[b,#{1=>a,a=>2}],error,{badkey,b}}. {33,[#Pid<1.0>,#{a=>1}],error,{badkey,#Pid<1.0>}}.
{33,['A b',[]],error,{badmap,[]}}. {33,[{2,1},#{a=>1,b=>2}],error,{badkey,{2,1}}}.
{33,[[1|2],#{a=>2,b=>1}],error,{badkey,[1|2]}}. {33,[error,#{a=>1}],error,{badkey,error}}.
{33,[{2,1},#{1=>a,a=>2}],error,{badkey,{2,1}}}.
{34,[64,#{}],value,false}. {34,[63,#{b=>1}],value,false}. {34,[a,#{a=>2,b=>1}],value,true}.
{34,[1,#{1=>a,a=>2}],value,true}. {34,[#{},-7],error,{badmap,-7}}. {34,[-9223372036854775808,#{a=>1}],value,false}.
{34,[[45,49],#{a=>1}],value,false}. {34,[[true,false],#{b=>1}],value,false}. {34,[7,#{a=>2,b=>1}],value,false}.
{34,[-1,#{1=>a,a=>2}],value,false}. {34,[[true,false],#{a=>1,b=>2}],value,false}. {34,[{a,b,c},#{}],value,false}.
{34,[[57,57,57,57,57,57,57,57,57,57,57,57,57,57,57,57,57,57,57,57],#{1=>a,a=>2}],value,false}.
{34,[64,#{a=>1,b=>2}],value,false}. {34,[{a,1},#{b=>1}],value,false}. {34,[[1,2,3],#{}],value,false}.
{36,[b],value,true}. {36,[1],value,false}. {36,[3],value,false}. {36,[false],value,true}.
{36,[[{a,1},{b,2},{a,3}]],value,false}. {36,[64],value,false}. {36,[#{a=>1,b=>2}],value,false}.
{36,[{a,b,c}],value,false}. {36,[#Pid<0.1>],value,false}. {36,[4611686018427387904],value,false}.
{36,[{a}],value,false}. {36,[-9223372036854775808],value,false}. {36,[[50,51]],value,false}.
{36,[#Pid<1.0>],value,false}. {36,[7],value,false}. {36,[[49,97]],value,false}.
{37,[b],value,false}. {37,[63],value,true}. {37,[-7],value,true}. {37,[true],value,false}.
{37,[[{1,x,y},z,{2},{1,w}]],value,false}. {37,[#{a=>2,b=>1}],value,false}. {37,[{1,a}],value,false}.
{37,[[50,51]],value,false}. {37,[[true,false]],value,false}. {37,[{a,b,c}],value,false}. {37,[false],value,false}.
{37,[-64],value,true}. {37,[#{}],value,false}. {37,[-9223372036854775808],value,true}. {37,[[45,49]],value,false}.
{37,[[a,b|c]],value,false}.
{38,[0],value,true}. {38,[63],value,true}. {38,[#Pid<0.1>],value,false}. {38,[error],value,false}.
{38,[[57,57,57,57,57,57,57,57,57,57,57,57,57,57,57,57,57,57,57,57]],value,false}. {38,[#Pid<0.0>],value,false}.
{38,[false],value,false}. {38,[#{1=>a,a=>2}],value,false}. {38,[[3,1,2,1]],value,false}. {38,[{}],value,false}.
{38,[9223372036854775806],value,true}. {38,[[49,97]],value,false}. {38,[255],value,true}.
{38,[{a,b,c}],value,false}. {38,[[true,false]],value,false}. {38,[-9223372036854775808],value,true}.
{39,[1],value,false}. {39,[7],value,false}. {39,[[1,2]],value,true}. {39,[[a,b|c]],value,true}.
{39,[[57,57,57,57,57,57,57,57,57,57,57,57,57,57,57,57,57,57,57,57]],value,true}. {39,[#{1=>a,a=>2}],value,false}.
{39,[{a,b,c}],value,false}. {39,[{1,a}],value,false}. {39,[#{a=>2,b=>1}],value,false}. {39,[#Pid<0.1>],value,false}.
{39,[-1],value,false}. {39,[true],value,false}. {39,[#{a=>1,b=>2}],value,false}. {39,[''],value,false}.
{39,[{a,1}],value,false}. {39,[[{1,x,y},z,{2},{1,w}]],value,true}.
{40,[b],value,false}. {40,[a],value,false}. {40,[{1,a}],value,true}. {40,[{2,1}],value,true}.
{40,[[57,57,57,57,57,57,57,57,57,57,57,57,57,57,57,57,57,57,57,57]],value,false}. {40,[#{}],value,false}.
{40,[fun erlang:abs/1],value,false}. {40,[-64],value,false}. {40,[63],value,false}. {40,[[43,55]],value,false}.
{40,[[1,2,3]],value,false}. {40,[#Pid<1.0>],value,false}. {40,[fun lists:reverse/2],value,false}.
{40,[[true,false]],value,false}. {40,[#{a=>1,b=>2}],value,false}. {40,['A b'],value,false}.
{41,[3],value,false}. {41,[2],value,false}.
{41,[[57,57,57,57,57,57,57,57,57,57,57,57,57,57,57,57,57,57,57,57]],value,false}. {41,[#{a=>1}],value,false}.
{41,[#Pid<1.0>],value,true}. {41,[[1,2]],value,false}. {41,[#{1=>a,a=>2}],value,false}.
{41,[[{1,x,y},z,{2},{1,w}]],value,false}. {41,['A b'],value,false}. {41,[[[1],[2,[3]]]],value,false}.
{41,[63],value,false}. {41,[{a,b,c}],value,false}. {41,[{a,1}],value,false}. {41,[9223372036854775806],value,false}.
{41,[{}],value,false}. {41,[-64],value,false}.
{42,[64],value,false}. {42,[63],value,false}. {42,[-9223372036854775808],value,false}.
{42,[#{a=>2,b=>1}],value,false}. {42,[{a,1}],value,false}. {42,[#{}],value,false}. {42,[[3,1,2,1]],value,false}.
{42,[[1,2,3]],value,false}. {42,[fun erlang:abs/1],value,false}. {42,['A b'],value,false}.
{42,[[a,b|c]],value,false}. {42,[#Pid<1.0>],value,false}. {42,[[1,2]],value,false}.
{42,[fun lists:reverse/2],value,false}. {42,[[43,55]],value,false}. {42,[[]],value,false}.
{43,[2],value,false}. {43,[7],value,false}. {43,[fun m:f/0],value,true}. {43,[9223372036854775807],value,false}.
{43,[{1,a}],value,false}. {43,[[49,97]],value,false}. {43,[255],value,false}. {43,[{a,b,c}],value,false}.
{43,[#Ref<0.5>],value,false}. {43,[[3,1,2,1]],value,false}. {43,[{a}],value,false}. {43,[{a,1}],value,false}.
{43,[[43,55]],value,false}. {43,[1],value,false}. {43,[-1],value,false}. {43,[#{b=>1}],value,false}.
{44,[2],value,false}. {44,[-1],value,false}. {44,[#{b=>1}],value,true}. {44,[#{a=>1,b=>2}],value,true}.
{44,[[57,57,57,57,57,57,57,57,57,57,57,57,57,57,57,57,57,57,57,57]],value,false}.
{44,[[{1,x,y},z,{2},{1,w}]],value,false}. {44,[[3,1,2,1]],value,false}. {44,[-9223372036854775808],value,false}.
{44,[#Pid<0.1>],value,false}. {44,[fun erlang:abs/1],value,false}. {44,[[1,2]],value,false}. {44,[64],value,false}.
{44,[#Ref<0.5>],value,false}. {44,[[43,55]],value,false}. {44,[{a}],value,false}. {44,['A b'],value,false}.
{45,[64],value,false}. {45,[-7],value,false}. {45,[[true,false]],value,false}. {45,[#{a=>2,b=>1}],value,false}.
{45,[''],value,false}. {45,[{}],value,false}. {45,[-64],value,false}. {45,[[a,b|c]],value,false}.
{45,[#Ref<0.5>],value,false}. {45,[#Pid<0.1>],value,false}. {45,[63],value,false}.
{45,[fun erlang:abs/1],value,false}. {45,[fun lists:reverse/2],value,false}. {45,[255],value,false}.
{45,[error],value,false}. {45,[[3,1,2,1]],value,false}.
{46,[2],value,false}. {46,[b],value,false}.
{46,[[57,57,57,57,57,57,57,57,57,57,57,57,57,57,57,57,57,57,57,57]],value,false}. {46,[[1,2]],value,false}.
{46,['A b'],value,false}. {46,[error],value,false}. {46,[{a}],value,false}. {46,[#{1=>a,a=>2}],value,false}.
{46,[1],value,false}. {46,[255],value,false}. {46,[#Pid<1.0>],value,false}. {46,[#Pid<0.1>],value,false}.
{46,[[{1,x,y},z,{2},{1,w}]],value,false}. {46,[-1],value,false}. {46,[{a,b,c}],value,false}. {46,[#{}],value,false}.
{47,[2],value,false}. {47,[1],value,false}.
{47,[[57,57,57,57,57,57,57,57,57,57,57,57,57,57,57,57,57,57,57,57]],value,false}. {47,[[45,49]],value,false}.
{47,[-9223372036854775808],value,false}. {47,[#{}],value,false}. {47,[4611686018427387904],value,false}.
{47,[[true,false]],value,false}. {47,[b],value,false}. {47,[{1,a}],value,false}. {47,[255],value,false}.
{47,[-1],value,false}. {47,[9223372036854775807],value,false}. {47,[''],value,false}. {47,[true],value,false}.
{47,[#Ref<0.0>],value,false}.
{48,[fun m:f/2,2],value,true}. {48,[a,1],value,false}. {48,[fun m:f/2,-1],error,badarg}. {48,[a,b],error,badarg}.
{48,[fun m:f/0,9223372036854775807],value,false}. {48,[fun lists:reverse/2,2],value,true}.
{48,[{a,1},64],value,false}. {48,[fun m:f/0,64],value,false}.
{48,[fun lists:reverse/2,9223372036854775806],value,false}. {48,[fun m:f/0,63],value,false}.
{48,[#Ref<0.0>,2],value,false}. {48,[fun lists:reverse/2,-64],error,badarg}. {48,[fun m:f/0,-64],error,badarg}.
{48,[fun lists:reverse/2,63],value,false}. {48,[fun m:f/0,1],value,false}. {48,[64,-7],error,badarg}.
{49,[1,2],value,2}. {49,[a,a],value,a}. {49,[-7,63],value,63}. {49,[false,7],value,false}. {49,['',7],value,''}.
{49,[a,[[1],[2,[3]]]],value,[[1],[2,[3]]]}.
{49,[-9223372036854775808,[{1,x,y},z,{2},{1,w}]],value,[{1,x,y},z,{2},{1,w}]}. {49,[#Ref<0.5>,{1,a}],value,{1,a}}.
{49,[[1],-1],value,[1]}. {49,[#{a=>1,b=>2},[3,1,2,1]],value,[3,1,2,1]}. {49,[64,#{a=>1,b=>2}],value,#{a=>1,b=>2}}.
{49,[2,#{1=>a,a=>2}],value,#{1=>a,a=>2}}. {49,[255,0],value,255}.
{49,[0,[{a,1},{b,2},{a,3}]],value,[{a,1},{b,2},{a,3}]}. {49,['A b','A b'],value,'A b'}. {49,[63,-64],value,63}.
{50,[#Ref<0.1>,a],value,a}. {50,[64,1],value,1}. {50,[b,63],value,63}. {50,[false,#Ref<0.0>],value,false}.
{50,[false,{}],value,false}. {50,[[57,57,57,57,57,57,57,57,57,57,57,57,57,57,57,57,57,57,57,57],true],value,true}.
{50,['','A b'],value,''}. {50,[#Pid<1.0>,[true,false]],value,#Pid<1.0>}. {50,[-7,fun erlang:abs/1],value,-7}.
{50,[fun m:f/0,#Pid<1.0>],value,fun m:f/0}. {50,[false,#{b=>1}],value,false}. {50,[{a,1},#{b=>1}],value,{a,1}}.
{50,[#Pid<0.1>,'A b'],value,'A b'}. {50,[-7,#{b=>1}],value,-7}. {50,[error,63],value,63}.
{50,[#Ref<0.0>,[43,55]],value,#Ref<0.0>}.
{51,[[1,2,3],-7],value,[1,2,3|-7]}. {51,[[],[45,49]],value,[45,49]}. {51,[[a,b|c],[a,b|c]],error,badarg}.
{51,[[50,51],fun m:f/0],value,[50,51|fun m:f/0]}. {51,[[45,49],[1,2]],value,[45,49,1,2]}.
{51,[[3,1,2,1],[3,1,2,1]],value,[3,1,2,1,3,1,2,1]}. {51,[[],1],value,1}. {51,[[1|2],[1]],error,badarg}.
{51,[#{a=>1,b=>2},[57,57,57,57,57,57,57,57,57,57,57,57,57,57,57,57,57,57,57,57]],error,badarg}.
{51,[-9223372036854775808,fun m:f/0],error,badarg}. {51,[[49,97],[49,97]],value,[49,97,49,97]}.
{51,[[50,51],[{1,x,y},z,{2},{1,w}]],value,[50,51,{1,x,y},z,{2},{1,w}]}.
{51,[[{a,1},{b,2},{a,3}],[1,2]],value,[{a,1},{b,2},{a,3},1,2]}.
{51,[[[1],[2,[3]]],4611686018427387904],value,[[1],[2,[3]]|4611686018427387904]}.
{51,[[a,b|c],[57,57,57,57,57,57,57,57,57,57,57,57,57,57,57,57,57,57,57,57]],error,badarg}.
{51,[[43,55],[1,2]],value,[43,55,1,2]}.
{52,[1,#{a=>1}],error,badarg}. {52,[[1,2],[1]],value,[2]}. {52,[[1,2],[3,1,2,1]],value,[]}.
{52,[[3,1,2,1],[1]],value,[3,2,1]}. {52,[[3,1,2,1],[1,1]],value,[3,2]}. {52,[[3,1,2,1],[1,1,1]],value,[3,2]}.
{52,[[a,b,c],[c,a]],value,[b]}. {52,[[{1,a},{a,1}],[{a,1}]],value,[{1,a}]}. {52,[[1,2],[1|2]],error,badarg}.
{52,[[1|2],[1]],error,badarg}. {52,[[],[1]],value,[]}. {52,[[1],[]],value,[1]}. {52,[[1,2,3],true],error,badarg}.
{52,[#{a=>1},[1,2,3]],error,badarg}. {52,[{a,b,c},[45,49]],error,badarg}. {52,[[a,b|c],[49,97]],error,badarg}.
{53,[3,{a,b},c],error,badarg}. {53,[2,{a,b},c],value,{a,c}}.
{53,[3,{a,b,c},[{a,1},{b,2},{a,3}]],value,{a,b,[{a,1},{b,2},{a,3}]}}. {53,[64,{1,a},[43,55]],error,badarg}.
{53,[-7,{2,1},[true,false]],error,badarg}. {53,[#Pid<0.0>,{a,b,c},64],error,badarg}.
{53,[-64,0,9223372036854775807],error,badarg}. {53,[64,{2,1},{a,1}],error,badarg}.
{53,[4611686018427387904,{a,b,c},{2,1}],error,badarg}. {53,[#Ref<0.5>,4611686018427387904,#{b=>1}],error,badarg}.
{53,[64,#{b=>1},63],error,badarg}. {53,[1,{},[49,97]],error,badarg}. {53,[63,{a},[{a,1},{b,2},{a,3}]],error,badarg}.
{53,[4611686018427387904,{},[true,false]],error,badarg}. {53,[63,{a,1},false],error,badarg}.
{53,[9223372036854775807,{a,1},#Pid<0.0>],error,badarg}.
{54,[{}],value,[]}. {54,[{a}],value,[a]}. {54,[[43,55]],error,badarg}. {54,['A b'],error,badarg}.
{54,[{a,1}],value,[a,1]}. {54,[{a,b,c}],value,[a,b,c]}. {54,[{2,1}],value,[2,1]}. {54,[{1,a}],value,[1,a]}.
{54,[[[1],[2,[3]]]],error,badarg}.
{55,[[1|2]],error,badarg}. {55,[[]],value,{}}. {55,[[1]],value,{1}}. {55,[[[1],[2,[3]]]],value,{[1],[2,[3]]}}.
{55,[[1,2]],value,{1,2}}. {55,[[45,49]],value,{45,49}}. {55,[[3,1,2,1]],value,{3,1,2,1}}.
{55,[[{1,x,y},z,{2},{1,w}]],value,{{1,x,y},z,{2},{1,w}}}. {55,[[50,51]],value,{50,51}}. {55,[7],error,badarg}.
{55,[#{}],error,badarg}. {55,[[true,false]],value,{true,false}}. {55,[[a,b|c]],error,badarg}.
{55,[[{a,1},{b,2},{a,3}]],value,{{a,1},{b,2},{a,3}}}. {55,[[49,97]],value,{49,97}}. {55,[a],error,badarg}.
{56,[-1,a],error,badarg}. {56,[16777216,a],error,badarg}. {56,[0,a],value,{}}. {56,[3,a],value,{a,a,a}}.
{56,[7,#Pid<0.1>],value,{#Pid<0.1>,#Pid<0.1>,#Pid<0.1>,#Pid<0.1>,#Pid<0.1>,#Pid<0.1>,#Pid<0.1>}}.
{56,[7,#{b=>1}],value,{#{b=>1},#{b=>1},#{b=>1},#{b=>1},#{b=>1},#{b=>1},#{b=>1}}}. {56,[2,-64],value,{-64,-64}}.
{56,[4611686018427387904,1],error,badarg}. {56,[-7,-1],error,badarg}.
{56,[2,#{1=>a,a=>2}],value,{#{1=>a,a=>2},#{1=>a,a=>2}}}. {56,[-7,fun lists:reverse/2],error,badarg}.
{56,[-7,#{a=>1,b=>2}],error,badarg}. {56,[7,[1,2]],value,{[1,2],[1,2],[1,2],[1,2],[1,2],[1,2],[1,2]}}.
{56,[7,#Pid<1.0>],value,{#Pid<1.0>,#Pid<1.0>,#Pid<1.0>,#Pid<1.0>,#Pid<1.0>,#Pid<1.0>,#Pid<1.0>}}.
{56,[-7,3],error,badarg}. {56,[-7,#Pid<1.0>],error,badarg}.
{57,[fun m:f/0,[a,b|c]],error,badarg}. {57,[[49,97],[1]],value,[97,49,1]}. {57,[[49,97],[1,2]],value,[97,49,1,2]}.
{57,[[true,false],-1],value,[false,true|-1]}. {57,[[50,51],[a,b|c]],value,[51,50,a,b|c]}.
{57,[[[1],[2,[3]]],3],value,[[2,[3]],[1]|3]}. {57,[[],7],value,7}. {57,[[1,2|3],[]],error,badarg}.
{57,[[43,55],[[1],[2,[3]]]],value,[55,43,[1],[2,[3]]]}. {57,[[a,b|c],[1,2,3]],error,badarg}.
{57,[[{1,x,y},z,{2},{1,w}],[true,false]],value,[{1,w},{2},z,{1,x,y},true,false]}.
{57,[[50,51],[3,1,2,1]],value,[51,50,3,1,2,1]}. {57,[[1],#Pid<1.0>],value,[1|#Pid<1.0>]}.
{57,[[3,1,2,1],[true,false]],value,[1,2,1,3,true,false]}.
{57,[[57,57,57,57,57,57,57,57,57,57,57,57,57,57,57,57,57,57,57,57],[1|2]],value,[57,57,57,57,57,57,57,57,57,57,57,57,57,57,57,57,57,57,57,57,1|2]}.
{57,[[3,1,2,1],[1,2]],value,[1,2,1,3,1,2]}.
{58,[b,3],error,badarg}. {58,[3,[]],value,false}. {58,[-7,[1,2]],value,false}.
{58,[-64,[57,57,57,57,57,57,57,57,57,57,57,57,57,57,57,57,57,57,57,57]],value,false}. {58,[1,[1|2]],value,true}.
{58,[3,[1|2]],error,badarg}. {58,[[1],[[1],2]],value,true}. {58,[fun m:f/0,#{a=>1}],error,badarg}.
{58,[[45,49],[57,57,57,57,57,57,57,57,57,57,57,57,57,57,57,57,57,57,57,57]],value,false}.
{58,[#{a=>1,b=>2},[true,false]],value,false}. {58,[error,255],error,badarg}. {58,[[49,97],[1,2]],value,false}.
{58,[#{},[49,97]],value,false}.
{58,[[57,57,57,57,57,57,57,57,57,57,57,57,57,57,57,57,57,57,57,57],[50,51]],value,false}.
{58,[#Ref<0.0>,[true,false]],value,false}. {58,[[1|2],[49,97]],value,false}.
{59,[-1,64,[1,2]],value,false}. {59,[[1,2],-64,0],error,badarg}. {59,[#Pid<0.0>,63,[50,51]],value,false}.
{59,[[1|2],255,[{1,x,y},z,{2},{1,w}]],value,false}. {59,[a,1,[{a,1},{b,2},{a,3}]],value,{a,1}}.
{59,[2,2,[{a,1},{b,2}]],value,{b,2}}. {59,[a,3,[{a,1}]],value,false}. {59,[a,1,[7,{a}|b]],value,{a}}.
{59,[c,1,[{a}|b]],error,badarg}. {59,[a,0,[{a}]],error,badarg}. {59,[a,b,[{a}]],error,badarg}.
{59,[a,9223372036854775807,[{a}]],value,false}. {59,[[a,b|c],63,[1]],value,false}.
{59,[{},9223372036854775807,[43,55]],value,false}.
{59,[[57,57,57,57,57,57,57,57,57,57,57,57,57,57,57,57,57,57,57,57],-1,[45,49]],error,badarg}.
{59,[-64,-7,[1|2]],error,badarg}.
{60,[7,#{}],error,{badkey,7}}. {60,[[],#{[]=>7,a=>1}],value,7}. {60,[a,5],error,{badmap,5}}.
{60,[#{a=>1,b=>2},#{b=>1}],error,{badkey,#{a=>1,b=>2}}}. {60,[#Ref<0.5>,#{a=>1,b=>2}],error,{badkey,#Ref<0.5>}}.
{60,[0,#{a=>2,b=>1}],error,{badkey,0}}. {60,['',#{a=>1,b=>2}],error,{badkey,''}}.
{60,[9223372036854775806,#{b=>1}],error,{badkey,9223372036854775806}}. {60,[{1,a},'A b'],error,{badmap,'A b'}}.
{60,[[45,49],#{1=>a,a=>2}],error,{badkey,[45,49]}}. {60,[[50,51],0],error,{badmap,0}}.
{60,[-64,#{a=>1}],error,{badkey,-64}}. {60,[{a,b,c},#{b=>1}],error,{badkey,{a,b,c}}}. {60,[3,#{}],error,{badkey,3}}.
{60,['',''],error,{badmap,''}}. {60,['A b',#{1=>a,a=>2}],error,{badkey,'A b'}}.
{61,[1,#{}],value,error}. {61,[-1,#{}],value,error}. {61,[1,#{1=>a,a=>2}],value,{ok,a}}.
{61,[#Ref<0.5>,false],error,{badmap,false}}. {61,[[{1,x,y},z,{2},{1,w}],#{1=>a,a=>2}],value,error}.
{61,[b,#{a=>1,b=>2}],value,{ok,2}}. {61,[fun m:f/0,#{b=>1}],value,error}.
{61,[fun erlang:abs/1,#{a=>1}],value,error}. {61,[{},#{}],value,error}.
{61,[#{1=>a,a=>2},#{a=>1,b=>2}],value,error}. {61,[fun lists:reverse/2,#{}],value,error}.
{61,[#{},#{a=>1}],value,error}. {61,[9223372036854775806,#{a=>2,b=>1}],value,error}.
{61,[fun lists:reverse/2,#{1=>a,a=>2}],value,error}. {61,[fun lists:reverse/2,#{a=>2,b=>1}],value,error}.
{61,[error,#{a=>1,b=>2}],value,error}.
{62,[0,-64,3],error,{badmap,3}}. {62,[-7,-64,#{}],value,#{-7=>-64}}.
{62,[fun m:f/0,#Ref<0.0>,#{}],value,#{fun m:f/0=>#Ref<0.0>}}.
{62,[{a,b,c},[3,1,2,1],#{a=>1}],value,#{a=>1,{a,b,c}=>[3,1,2,1]}}. {62,[b,5,#{a=>1,c=>3}],value,#{a=>1,b=>5,c=>3}}.
{62,[a,5,#{a=>1,c=>3}],value,#{a=>5,c=>3}}. {62,[1,x,#{a=>1}],value,#{1=>x,a=>1}}.
{62,[d,9,#{a=>1}],value,#{a=>1,d=>9}}. {62,['A b',#Pid<0.1>,#{}],value,#{'A b'=>#Pid<0.1>}}.
{62,[{a},7,64],error,{badmap,64}}.
{62,[9223372036854775807,4611686018427387904,#{b=>1}],value,#{9223372036854775807=>4611686018427387904,b=>1}}.
{62,[9223372036854775806,-7,#{a=>2,b=>1}],value,#{9223372036854775806=>-7,a=>2,b=>1}}.
{62,[0,'A b',#{a=>2,b=>1}],value,#{0=>'A b',a=>2,b=>1}}.
{62,[#{1=>a,a=>2},fun erlang:abs/1,#{1=>a,a=>2}],value,#{1=>a,a=>2,#{1=>a,a=>2}=>fun erlang:abs/1}}.
{62,[[1,2],#Pid<1.0>,#Pid<0.1>],error,{badmap,#Pid<0.1>}}.
{62,[[1,2,3],[{1,x,y},z,{2},{1,w}],[1,2]],error,{badmap,[1,2]}}.
{63,[-7,{1,a},#{}],error,{badkey,-7}}. {63,[a,5,#{a=>1,c=>3}],value,#{a=>5,c=>3}}.
{63,[b,5,#{a=>1,c=>3}],error,{badkey,b}}. {63,[b,5,7],error,{badmap,7}}.
{63,[-9223372036854775808,{a,1},#{b=>1}],error,{badkey,-9223372036854775808}}.
{63,[9223372036854775807,7,#{a=>2,b=>1}],error,{badkey,9223372036854775807}}.
{63,[#{b=>1},[1],#{}],error,{badkey,#{b=>1}}}. {63,['A b',-1,#{}],error,{badkey,'A b'}}.
{63,[[1],-9223372036854775808,#{}],error,{badkey,[1]}}.
{63,[9223372036854775806,#{1=>a,a=>2},#{b=>1}],error,{badkey,9223372036854775806}}.
{63,[error,1,#{1=>a,a=>2}],error,{badkey,error}}.
{63,[#{a=>1,b=>2},[43,55],#{a=>1,b=>2}],error,{badkey,#{a=>1,b=>2}}}.
{63,[#{a=>2,b=>1},2,#{a=>1,b=>2}],error,{badkey,#{a=>2,b=>1}}}.
{63,[#{a=>2,b=>1},[1,2],#{b=>1}],error,{badkey,#{a=>2,b=>1}}}.
{63,[#{b=>1},#Pid<1.0>,#{1=>a,a=>2}],error,{badkey,#{b=>1}}}. {63,[[1|2],[43,55],#{}],error,{badkey,[1|2]}}.
{64,[64,#{}],value,#{}}. {64,['',#{}],value,#{}}. {64,[0,7],error,{badmap,7}}. {64,[a,#{a=>1,c=>3}],value,#{c=>3}}.
{64,[c,#{a=>1,b=>2,c=>3}],value,#{a=>1,b=>2}}. {64,[b,#{a=>1,c=>3}],value,#{a=>1,c=>3}}.
{64,[#{a=>1,b=>2},#{}],value,#{}}. {64,[[1],#{a=>2,b=>1}],value,#{a=>2,b=>1}}.
{64,[#Pid<0.1>,4611686018427387904],error,{badmap,4611686018427387904}}.
{64,[4611686018427387904,#{a=>2,b=>1}],value,#{a=>2,b=>1}}. {64,[7,#{b=>1}],value,#{b=>1}}.
{64,[{1,a},'A b'],error,{badmap,'A b'}}. {64,[b,#{1=>a,a=>2}],value,#{1=>a,a=>2}}. {64,[b,#{a=>1}],value,#{a=>1}}.
{64,[7,#{a=>1,b=>2}],value,#{a=>1,b=>2}}. {64,[[43,55],#{a=>1}],value,#{a=>1}}.
{65,[a,#{}],value,false}. {65,[-1,#{}],value,false}. {65,[b,#{a=>2,b=>1}],value,true}.
{65,[[3,1,2,1],true],error,{badmap,true}}. {65,[[[1],[2,[3]]],#{a=>2,b=>1}],value,false}.
{65,[1,#{a=>1,1=>x}],value,true}. {65,[0,#{1=>a,a=>2}],value,false}. {65,[#{a=>2,b=>1},#{a=>1}],value,false}.
{65,[{a,b,c},#{b=>1}],value,false}. {65,[#Pid<1.0>,#{b=>1}],value,false}. {65,[false,#{a=>2,b=>1}],value,false}.
{65,[[45,49],{a,1}],error,{badmap,{a,1}}}. {65,['',#{a=>1,b=>2}],value,false}.
{65,[#Ref<0.0>,#{a=>2,b=>1}],value,false}. {65,[[1],#{1=>a,a=>2}],value,false}.
{65,[#{a=>2,b=>1},#{b=>1}],value,false}.
{66,[#{}],value,[]}. {66,[#{a=>1}],value,[a]}. {66,[255],error,{badmap,255}}.
{66,[#{a=>1,1=>x,{}=>2}],value,[1,a,{}]}. {66,[{a,b,c}],error,{badmap,{a,b,c}}}. {66,[#{1=>a,a=>2}],value,[1,a]}.
{66,[[50,51]],error,{badmap,[50,51]}}. {66,[#{a=>2,b=>1}],value,[a,b]}. {66,[[1]],error,{badmap,[1]}}.
{66,[#{b=>1}],value,[b]}. {66,[#{a=>1,b=>2}],value,[a,b]}. {66,[[1,2,3]],error,{badmap,[1,2,3]}}.
{66,[[{1,x,y},z,{2},{1,w}]],error,{badmap,[{1,x,y},z,{2},{1,w}]}}. {66,[{a,1}],error,{badmap,{a,1}}}.
{67,[#{}],value,[]}. {67,[a],error,{badmap,a}}. {67,[#{b=>1}],value,[1]}. {67,[#{a=>1,1=>x,{}=>2}],value,[x,1,2]}.
{67,[#{a=>1}],value,[1]}. {67,[{}],error,{badmap,{}}}.
{67,[9223372036854775807],error,{badmap,9223372036854775807}}.
{67,[fun lists:reverse/2],error,{badmap,fun lists:reverse/2}}. {67,[2],error,{badmap,2}}.
{67,[#{1=>a,a=>2}],value,[a,2]}. {67,[#{a=>2,b=>1}],value,[2,1]}. {67,[[1]],error,{badmap,[1]}}.
{67,[#{a=>1,b=>2}],value,[1,2]}.
{68,[#{}],value,[]}. {68,[2],error,{badmap,2}}. {68,[#{a=>1}],value,[{a,1}]}.
{68,[#{a=>1,b=>2}],value,[{a,1},{b,2}]}. {68,[#{a=>1,1=>x}],value,[{1,x},{a,1}]}. {68,[-1],error,{badmap,-1}}.
{68,[#{a=>2,b=>1}],value,[{a,2},{b,1}]}. {68,[#{1=>a,a=>2}],value,[{1,a},{a,2}]}. {68,[#{b=>1}],value,[{b,1}]}.
{68,[[3,1,2,1]],error,{badmap,[3,1,2,1]}}. {68,[[43,55]],error,{badmap,[43,55]}}.
{68,[#Pid<0.0>],error,{badmap,#Pid<0.0>}}.
{69,[1],error,badarg}. {69,[[]],value,#{}}. {69,[[{a,1},{1,x},{a,2}]],value,#{1=>x,a=>2}}.
{69,[[{a,1},{b}]],error,badarg}. {69,[[{a,1}|7]],error,badarg}. {69,[[{a,1,2}]],error,badarg}.
{69,[''],error,badarg}. {69,[[57,57,57,57,57,57,57,57,57,57,57,57,57,57,57,57,57,57,57,57]],error,badarg}.
{69,[[49,97]],error,badarg}. {69,[[50,51]],error,badarg}. {69,[[1]],error,badarg}.
{69,[[{1,x,y},z,{2},{1,w}]],error,badarg}. {69,[[45,49]],error,badarg}. {69,[[1,2,3]],error,badarg}.
{69,[[a,b|c]],error,badarg}. {69,[[[1],[2,[3]]]],error,badarg}.
{70,[#{},#{}],value,#{}}. {70,[#{a=>1},#{}],value,#{a=>1}}. {70,[3,#{a=>1}],error,{badmap,3}}.
{70,[#{a=>1,b=>2},#{b=>5,c=>6}],value,#{a=>1,b=>5,c=>6}}. {70,[#{a=>1},7],error,{badmap,7}}.
{70,[#{},#{a=>1}],value,#{a=>1}}. {70,[3,4],error,{badmap,3}}. {70,[#{a=>2,b=>1},#{}],value,#{a=>2,b=>1}}.
{70,[#{a=>1,b=>2},#{1=>a,a=>2}],value,#{1=>a,a=>2,b=>2}}. {70,[#{b=>1},255],error,{badmap,255}}.
{70,[#{a=>1},#{a=>1,b=>2}],value,#{a=>1,b=>2}}. {70,[#{},{2,1}],error,{badmap,{2,1}}}.
{70,[#{a=>2,b=>1},#{1=>a,a=>2}],value,#{1=>a,a=>2,b=>1}}.
{70,[#{1=>a,a=>2},[[1],[2,[3]]]],error,{badmap,[[1],[2,[3]]]}}.
{70,[[3,1,2,1],#{1=>a,a=>2}],error,{badmap,[3,1,2,1]}}.
{70,[fun lists:reverse/2,#{a=>2,b=>1}],error,{badmap,fun lists:reverse/2}}.
{71,[1],error,badarg}. {71,[a],value,[97]}. {71,[''],value,[]}. {71,[abc],value,[97,98,99]}.
{71,[{a,b,c}],error,badarg}. {71,[#Pid<0.1>],error,badarg}. {71,[-9223372036854775808],error,badarg}.
{71,[#Pid<1.0>],error,badarg}. {71,[#{a=>2,b=>1}],error,badarg}. {71,[[]],error,badarg}.
{71,[9223372036854775806],error,badarg}. {71,[#{}],error,badarg}. {71,[[{1,x,y},z,{2},{1,w}]],error,badarg}.
{71,[0],error,badarg}. {71,[[43,55]],error,badarg}. {71,[#Ref<0.5>],error,badarg}.
{72,[b],error,badarg}. {72,[3],value,[51]}. {72,[2],value,[50]}. {72,[-120],value,[45,49,50,48]}.
{72,[0],value,[48]}.
{72,[-9223372036854775808],value,[45,57,50,50,51,51,55,50,48,51,54,56,53,52,55,55,53,56,48,56]}.
{72,[9223372036854775807],value,[57,50,50,51,51,55,50,48,51,54,56,53,52,55,55,53,56,48,55]}.
{72,[true],error,badarg}. {72,[fun m:f/0],error,badarg}. {72,[[{1,x,y},z,{2},{1,w}]],error,badarg}.
{72,[error],error,badarg}.
{72,[9223372036854775806],value,[57,50,50,51,51,55,50,48,51,54,56,53,52,55,55,53,56,48,54]}.
{72,[-64],value,[45,54,52]}. {72,[#{a=>1,b=>2}],error,badarg}. {72,[63],value,[54,51]}. {72,[[1,2]],error,badarg}.
{73,[false],error,badarg}. {73,[[43,55]],value,7}. {73,[[45,49]],value,-1}.
{73,[[57,57,57,57,57,57,57,57,57,57,57,57,57,57,57,57,57,57,57,57]],error,system_limit}.
{73,[[45,57,50,50,51,51,55,50,48,51,54,56,53,52,55,55,53,56,48,56]],value,-9223372036854775808}.
{73,[[45,57,50,50,51,51,55,50,48,51,54,56,53,52,55,55,53,56,48,57]],error,system_limit}.
{73,[[57,50,50,51,51,55,50,48,51,54,56,53,52,55,55,53,56,48,55]],value,9223372036854775807}.
{73,[[57,50,50,51,51,55,50,48,51,54,56,53,52,55,55,53,56,48,56]],error,system_limit}. {73,[[48,48,49,50]],value,12}.
{73,[[]],error,badarg}. {73,[[45]],error,badarg}. {73,[[43,45,49]],error,badarg}.
{73,[[57,57,57,57,57,57,57,57,57,57,57,57,57,57,57,57,57,57,57,57,57,97]],error,badarg}. {73,[[49,a]],error,badarg}.
{73,[[49|50]],error,badarg}. {73,[[-49]],error,badarg}.
{74,[b],error,b}. {74,[a],error,a}. {74,[3],error,3}. {74,[64],error,64}. {74,[255],error,255}.
{74,[fun m:f/0],error,fun m:f/0}. {74,[[true,false]],error,[true,false]}. {74,[#{a=>1,b=>2}],error,#{a=>1,b=>2}}.
{74,[[a,b|c]],error,[a,b|c]}. {74,[[{a,1},{b,2},{a,3}]],error,[{a,1},{b,2},{a,3}]}.
{74,[fun erlang:abs/1],error,fun erlang:abs/1}. {74,[#{a=>2,b=>1}],error,#{a=>2,b=>1}}.
{74,[#{1=>a,a=>2}],error,#{1=>a,a=>2}}. {74,[{2,1}],error,{2,1}}. {74,[#Ref<0.0>],error,#Ref<0.0>}.
{74,[{a,1}],error,{a,1}}.
{75,[63,-64],error,63}. {75,[-64,-7],error,-64}. {75,[-1,#Pid<0.0>],error,-1}. {75,[1,#{a=>1}],error,1}.
{75,[#{},0],error,#{}}. {75,[[true,false],''],error,[true,false]}. {75,[[43,55],[49,97]],error,[43,55]}.
{75,[fun lists:reverse/2,b],error,fun lists:reverse/2}. {75,[-7,[3,1,2,1]],error,-7}.
{75,[[{1,x,y},z,{2},{1,w}],63],error,[{1,x,y},z,{2},{1,w}]}. {75,[#Pid<0.1>,#{a=>1}],error,#Pid<0.1>}.
{75,[[{1,x,y},z,{2},{1,w}],[45,49]],error,[{1,x,y},z,{2},{1,w}]}.
{75,[[3,1,2,1],[{a,1},{b,2},{a,3}]],error,[3,1,2,1]}. {75,[[3,1,2,1],#Pid<1.0>],error,[3,1,2,1]}.
{75,[9223372036854775806,[1,2,3]],error,9223372036854775806}. {75,[[49,97],#Pid<0.1>],error,[49,97]}.
{76,[2],exit,2}. {76,[b],exit,b}. {76,[63],exit,63}. {76,[-1],exit,-1}. {76,[-64],exit,-64}.
{76,[[1,2,3]],exit,[1,2,3]}. {76,[#{a=>2,b=>1}],exit,#{a=>2,b=>1}}. {76,[[50,51]],exit,[50,51]}.
{76,[[1|2]],exit,[1|2]}. {76,[true],exit,true}. {76,[9223372036854775807],exit,9223372036854775807}.
{76,[{a,b,c}],exit,{a,b,c}}. {76,[fun m:f/0],exit,fun m:f/0}. {76,[#Ref<0.0>],exit,#Ref<0.0>}.
{76,[#{a=>1}],exit,#{a=>1}}. {76,[[]],exit,[]}.
{77,[a],throw,a}. {77,[7],throw,7}. {77,[b],throw,b}. {77,[-1],throw,-1}. {77,[255],throw,255}.
{77,[[49,97]],throw,[49,97]}. {77,[#{a=>2,b=>1}],throw,#{a=>2,b=>1}}. {77,[[43,55]],throw,[43,55]}.
{77,[{a}],throw,{a}}. {77,[#{b=>1}],throw,#{b=>1}}. {77,[#Pid<0.0>],throw,#Pid<0.0>}.
{77,[[{1,x,y},z,{2},{1,w}]],throw,[{1,x,y},z,{2},{1,w}]}. {77,[#{1=>a,a=>2}],throw,#{1=>a,a=>2}}.
{77,[4611686018427387904],throw,4611686018427387904}. {77,[#{a=>1,b=>2}],throw,#{a=>1,b=>2}}.
{77,[{1,a}],throw,{1,a}}.
{78,[error,a,[]],error,a}. {78,[exit,a,[]],exit,a}. {78,[throw,a,[1]],throw,a}. {78,[other,a,[]],value,badarg}.
{78,[1,a,[]],value,badarg}. {78,[throw,a,[1|2]],value,badarg}. {78,[error,1,[]],error,1}.
{78,[error,2,[1,2]],error,2}. {78,[-7,2,[50,51]],value,badarg}. {78,[0,fun erlang:abs/1,{}],value,badarg}.
{78,[error,64,[a,b|c]],value,badarg}.
{78,[throw,64,[57,57,57,57,57,57,57,57,57,57,57,57,57,57,57,57,57,57,57,57]],throw,64}.
{78,[{1,a},{a,b,c},[true,false]],value,badarg}. {78,[exit,true,[{a,1},{b,2},{a,3}]],exit,true}.
{78,[error,fun lists:reverse/2,2],value,badarg}. {78,[a,4611686018427387904,[1,2,3]],value,badarg}.";

/// Rows of tests.
pub(crate) const TESTS: &str =
    "{1,[1,a],value,true}. {1,[a,#Ref<0.1>],value,true}. {1,[#Ref<0.1>,fun m:f/1],value,true}.
{1,[fun m:f/1,#Pid<0.1>],value,true}. {1,[#Pid<0.1>,{}],value,true}. {1,[{9,8},#{}],value,true}.
{1,[#{a=>1,b=>2},[]],value,true}. {1,[[],[0]],value,true}. {1,[#{a=>1},#{a=>2}],value,true}.
{1,[#{1=>2},#{a=>1}],value,true}. {1,[{b,1},{a,1,2}],value,true}. {1,[[1,2],[1|3]],value,false}.
{1,[[1|3],[1,2]],value,true}. {1,[#Ref<0.5>,0],value,false}. {1,[-7,[1,2,3]],value,true}.
{1,[4611686018427387904,#Pid<0.0>],value,true}.
{2,[0,63],value,false}. {2,[-1,a],value,false}. {2,[fun m:f/0,63],value,true}. {2,[#{b=>1},255],value,true}.
{2,[[45,49],fun lists:reverse/2],value,true}. {2,[error,#{a=>1,b=>2}],value,false}. {2,[63,#{}],value,false}.
{2,[#Ref<0.5>,{2,1}],value,false}. {2,[fun lists:reverse/2,fun erlang:abs/1],value,true}.
{2,['',[[1],[2,[3]]]],value,false}. {2,[fun lists:reverse/2,[1|2]],value,false}.
{2,[#Pid<1.0>,#{b=>1}],value,false}. {2,[[],{}],value,true}. {2,[[[1],[2,[3]]],[49,97]],value,true}.
{2,[[{a,1},{b,2},{a,3}],[1,2]],value,true}. {2,[7,fun m:f/0],value,false}.
{3,[3,#Pid<0.0>],value,false}. {3,[63,#Ref<0.5>],value,false}. {3,[#{b=>1},#{b=>1}],value,true}.
{3,[[49,97],'A b'],value,false}. {3,[#{a=>1},fun m:f/0],value,false}. {3,[a,[a,b|c]],value,false}.
{3,[#{a=>2,b=>1},#{}],value,false}. {3,[[1],[43,55]],value,false}. {3,[[{1,x,y},z,{2},{1,w}],{1,a}],value,false}.
{3,[[1,2,3],'A b'],value,false}. {3,[4611686018427387904,-1],value,false}. {3,[#Pid<0.1>,[1,2,3]],value,false}.
{3,[-9223372036854775808,fun erlang:abs/1],value,false}. {3,[3,[50,51]],value,false}.
{3,[fun m:f/0,#{b=>1}],value,false}. {3,[b,[45,49]],value,false}.
{4,[0,1],value,true}. {4,[a,true],value,true}. {4,[#{a=>1,b=>2},3],value,true}. {4,[#Ref<0.5>,error],value,true}.
{4,[#{1=>a,a=>2},[57,57,57,57,57,57,57,57,57,57,57,57,57,57,57,57,57,57,57,57]],value,true}.
{4,[0,[57,57,57,57,57,57,57,57,57,57,57,57,57,57,57,57,57,57,57,57]],value,true}.
{4,[9223372036854775807,0],value,true}. {4,[63,#Pid<1.0>],value,true}. {4,[#Pid<1.0>,fun erlang:abs/1],value,true}.
{4,[{},255],value,true}. {4,[fun m:f/0,3],value,true}. {4,[[1],64],value,true}.
{4,[{a},4611686018427387904],value,true}. {4,[#{1=>a,a=>2},#Ref<0.5>],value,true}. {4,[fun m:f/0,[]],value,true}.
{4,[255,'A b'],value,true}.
{5,[#{1=>a,2=>b},#{2=>b,1=>a}],value,true}. {5,[a,#Ref<0.0>],value,false}. {5,[-64,#Pid<0.0>],value,false}.
{5,[[],[]],value,true}. {5,[#{a=>2,b=>1},3],value,false}. {5,[{a,1},-9223372036854775808],value,false}.
{5,[[3,1,2,1],[50,51]],value,false}. {5,[[1],#{a=>1,b=>2}],value,false}. {5,[#Ref<0.0>,{}],value,false}.
{5,[[45,49],[1,2]],value,false}. {5,[b,{a}],value,false}. {5,[[43,55],3],value,false}.
{5,[[{a,1},{b,2},{a,3}],[1|2]],value,false}. {5,[{2,1},a],value,false}. {5,[[1,2],b],value,false}.
{5,[error,#{a=>2,b=>1}],value,false}.
{6,[3,a],value,true}. {6,[b,0],value,true}. {6,[false,false],value,false}. {6,['A b',fun erlang:abs/1],value,true}.
{6,[#Pid<0.0>,fun lists:reverse/2],value,true}. {6,[#{1=>a,a=>2},#{a=>2,b=>1}],value,true}.
{6,[{a},#Pid<1.0>],value,true}. {6,[[],[1|2]],value,true}. {6,[true,[a,b|c]],value,true}.
{6,[fun m:f/0,64],value,true}. {6,[[[1],[2,[3]]],fun m:f/0],value,true}. {6,[[true,false],[1|2]],value,true}.
{6,[[{1,x,y},z,{2},{1,w}],fun erlang:abs/1],value,true}. {6,[[],{a,1}],value,true}. {6,[#Pid<1.0>,2],value,true}.
{6,[[57,57,57,57,57,57,57,57,57,57,57,57,57,57,57,57,57,57,57,57],a],value,true}.
{7,[2],value,true}. {7,[1],value,true}. {7,[error],value,false}. {7,[#{}],value,false}. {7,[{}],value,false}.
{7,[{1,a}],value,false}. {7,[[1]],value,false}. {7,[9223372036854775806],value,true}. {7,[-1],value,true}.
{7,[[57,57,57,57,57,57,57,57,57,57,57,57,57,57,57,57,57,57,57,57]],value,false}. {7,[63],value,true}.
{7,[[1,2,3]],value,false}. {7,[[45,49]],value,false}. {7,[[1|2]],value,false}. {7,[#{b=>1}],value,false}.
{7,[#Pid<0.0>],value,false}.
{8,[0],value,true}. {8,[a],value,false}. {8,[-7],value,true}. {8,[''],value,false}. {8,[[3,1,2,1]],value,false}.
{8,['A b'],value,false}. {8,[{1,a}],value,false}. {8,[[a,b|c]],value,false}. {8,[[43,55]],value,false}.
{8,[error],value,false}. {8,[#{}],value,false}. {8,[false],value,false}. {8,[#{1=>a,a=>2}],value,false}.
{8,[[50,51]],value,false}. {8,[fun m:f/0],value,false}. {8,[[1,2,3]],value,false}.
{9,[a],value,true}. {9,[7],value,false}. {9,[3],value,false}. {9,[''],value,true}. {9,[-64],value,false}.
{9,[[3,1,2,1]],value,false}. {9,[[45,49]],value,false}. {9,[63],value,false}. {9,[{a}],value,false}.
{9,[[]],value,false}. {9,[[57,57,57,57,57,57,57,57,57,57,57,57,57,57,57,57,57,57,57,57]],value,false}.
{9,[#{1=>a,a=>2}],value,false}. {9,[fun m:f/0],value,false}. {9,[#Pid<0.1>],value,false}.
{9,[fun lists:reverse/2],value,false}. {9,[[true,false]],value,false}.
{10,[3],value,false}. {10,[2],value,false}. {10,[#Pid<0.1>],value,true}. {10,['A b'],value,false}.
{10,[255],value,false}. {10,[fun erlang:abs/1],value,false}. {10,[[[1],[2,[3]]]],value,false}.
{10,[[{1,x,y},z,{2},{1,w}]],value,false}. {10,[fun m:f/0],value,false}. {10,[-9223372036854775808],value,false}.
{10,[7],value,false}. {10,[#{}],value,false}. {10,[[1,2]],value,false}. {10,[#Ref<0.0>],value,false}.
{10,[-1],value,false}. {10,[[50,51]],value,false}.
{11,[0],value,false}. {11,[b],value,false}. {11,[#Ref<0.0>],value,true}. {11,[-64],value,false}.
{11,[[]],value,false}. {11,[{}],value,false}. {11,[[1,2]],value,false}. {11,[fun erlang:abs/1],value,false}.
{11,[true],value,false}. {11,['A b'],value,false}. {11,[#{b=>1}],value,false}. {11,[[[1],[2,[3]]]],value,false}.
{11,[[1]],value,false}. {11,[#{a=>1}],value,false}. {11,[[3,1,2,1]],value,false}. {11,[error],value,false}.
{12,[b],value,false}. {12,[a],value,false}. {12,[[]],value,true}. {12,[[1,2]],value,false}.
{12,[[50,51]],value,false}. {12,[[a,b|c]],value,false}. {12,[255],value,false}. {12,[fun erlang:abs/1],value,false}.
{12,[9223372036854775806],value,false}. {12,[[{a,1},{b,2},{a,3}]],value,false}. {12,[[45,49]],value,false}.
{12,[#Pid<0.0>],value,false}. {12,[false],value,false}. {12,[[{1,x,y},z,{2},{1,w}]],value,false}.
{12,[fun m:f/0],value,false}. {12,[''],value,false}.
{13,[3],value,false}. {13,[0],value,false}. {13,[[1]],value,true}. {13,[[1,2,3]],value,true}. {13,[-1],value,false}.
{13,[fun m:f/0],value,false}. {13,[9223372036854775806],value,false}. {13,[-7],value,false}.
{13,[#Ref<0.0>],value,false}. {13,[[{a,1},{b,2},{a,3}]],value,true}. {13,[[50,51]],value,true}.
{13,[-64],value,false}. {13,[9223372036854775807],value,false}. {13,[fun erlang:abs/1],value,false}.
{13,[4611686018427387904],value,false}. {13,[[45,49]],value,true}.
{14,[3],value,false}. {14,[7],value,false}. {14,[[1]],value,true}. {14,[[50,51]],value,true}.
{14,[4611686018427387904],value,false}. {14,[{a,1}],value,false}. {14,[{1,a}],value,false}.
{14,[[3,1,2,1]],value,true}. {14,[#{b=>1}],value,false}. {14,[-1],value,false}.
{14,[9223372036854775807],value,false}. {14,[b],value,false}. {14,[[{a,1},{b,2},{a,3}]],value,true}.
{14,[[43,55]],value,true}. {14,[0],value,false}. {14,[{a,b,c}],value,false}.
{15,[b],value,false}. {15,[a],value,false}. {15,[{a}],value,true}. {15,[#Pid<0.0>],value,false}.
{15,[[true,false]],value,false}. {15,[[]],value,false}. {15,[true],value,false}. {15,[63],value,false}.
{15,[[{a,1},{b,2},{a,3}]],value,false}. {15,[4611686018427387904],value,false}. {15,[#{1=>a,a=>2}],value,false}.
{15,[fun lists:reverse/2],value,false}. {15,[[{1,x,y},z,{2},{1,w}]],value,false}. {15,[7],value,false}.
{15,[[45,49]],value,false}. {15,[3],value,false}.
{16,[{a,b},2],value,true}. {16,[{a,b},-2],value,false}. {16,[{a,b},b],value,false}.
{16,[#{1=>a,a=>2},1],value,false}. {16,[64,1],value,false}. {16,[3,0],value,false}.
{16,[[{a,1},{b,2},{a,3}],3],value,false}. {16,[64,0],value,false}. {16,[[3,1,2,1],2],value,false}.
{16,[#Ref<0.5>,-1],value,false}. {16,[#{a=>1,b=>2},2],value,false}. {16,[[1],0],value,false}.
{16,[[a,b|c],3],value,false}. {16,[true,2],value,false}. {16,[a,-1],value,false}. {16,[3,1],value,false}.
{17,[b],value,false}. {17,[2],value,false}. {17,[''],value,false}. {17,[#Pid<1.0>],value,false}.
{17,['A b'],value,false}. {17,[-1],value,false}. {17,[7],value,false}. {17,[[{1,x,y},z,{2},{1,w}]],value,false}.
{17,[3],value,false}. {17,[[1,2]],value,false}. {17,[{2,1}],value,false}. {17,[9223372036854775807],value,false}.
{17,[{}],value,false}. {17,[fun lists:reverse/2],value,false}. {17,[[]],value,false}.
{17,[4611686018427387904],value,false}.
{18,[b],value,false}. {18,[255],value,false}. {18,[fun m:f/0],value,true}. {18,[#{1=>a,a=>2}],value,false}.
{18,[#{b=>1}],value,false}. {18,[#{}],value,false}. {18,[fun erlang:abs/1],value,true}. {18,[[1,2]],value,false}.
{18,[9223372036854775806],value,false}. {18,[#{a=>1,b=>2}],value,false}. {18,[[1|2]],value,false}.
{18,[false],value,false}. {18,[[{a,1},{b,2},{a,3}]],value,false}. {18,[{a,b,c}],value,false}.
{18,[#Pid<1.0>],value,false}. {18,[[1]],value,false}.
{19,[fun m:f/2,2],value,true}. {19,[fun m:f/2,-2],value,false}. {19,[3,-64],value,false}.
{19,[[a,b|c],[1|2]],value,false}. {19,[[1],{a}],value,false}. {19,[fun m:f/0,64],value,false}.
{19,[fun lists:reverse/2,#Ref<0.5>],value,false}. {19,[9223372036854775807,7],value,false}.
{19,[#Ref<0.5>,1],value,false}. {19,[9223372036854775806,[50,51]],value,false}.
{19,[[1,2,3],[{a,1},{b,2},{a,3}]],value,false}. {19,[2,[1,2,3]],value,false}. {19,[3,#Pid<0.1>],value,false}.
{19,[#{a=>1,b=>2},error],value,false}. {19,[[1],true],value,false}. {19,[#{1=>a,a=>2},1],value,false}.
{20,[0],value,false}. {20,[1],value,false}. {20,[#{b=>1}],value,true}. {20,[#{1=>a,a=>2}],value,true}.
{20,[[[1],[2,[3]]]],value,false}. {20,[-1],value,false}. {20,[[45,49]],value,false}.
{20,[9223372036854775806],value,false}. {20,[[1]],value,false}. {20,[[a,b|c]],value,false}.
{20,[[49,97]],value,false}. {20,[{a,b,c}],value,false}. {20,[#Ref<0.0>],value,false}.
{20,[fun erlang:abs/1],value,false}. {20,[true],value,false}. {20,[{a}],value,false}.
{21,[{a,b},2,a],value,true}. {21,[{a,b},2,b],value,false}. {21,[{a,b},1,a],value,false}. {21,[{},0,a],value,false}.
{21,[{a,b,c},3,a],value,true}. {21,[[{1,x,y},z,{2},{1,w}],0,true],value,false}.
{21,[[57,57,57,57,57,57,57,57,57,57,57,57,57,57,57,57,57,57,57,57],0,a],value,false}. {21,[0,0,a],value,false}.
{21,[true,2,a],value,false}. {21,[#Ref<0.5>,2,true],value,false}. {21,[{1,a},2,b],value,false}.
{21,[{1,a},3,a],value,false}. {21,[[45,49],0,b],value,false}. {21,[[true,false],3,true],value,false}.
{21,[[true,false],2,a],value,false}. {21,[-1,1,b],value,false}.
{22,[a],value,false}. {22,[7],value,false}. {22,[[45,49]],value,false}. {22,[{}],value,false}.
{22,[#{b=>1}],value,false}. {22,[{a}],value,false}. {22,[[49,97]],value,false}. {22,[{2,1}],value,false}.
{22,[[3,1,2,1]],value,false}. {22,[-9223372036854775808],value,false}. {22,[fun lists:reverse/2],value,false}.
{22,[true],value,false}. {22,[#Pid<1.0>],value,false}. {22,[fun m:f/0],value,false}. {22,[b],value,false}.
{22,[false],value,false}.
{23,[a],value,false}. {23,[3],value,false}. {23,[4611686018427387904],value,false}. {23,[''],value,false}.
{23,[#Pid<1.0>],value,false}. {23,[{a,b,c}],value,false}. {23,[-1],value,false}.
{23,[fun erlang:abs/1],value,false}. {23,[[1,2,3]],value,false}. {23,[7],value,false}. {23,[#{a=>1}],value,false}.
{23,[#{1=>a,a=>2}],value,false}. {23,[fun lists:reverse/2],value,false}. {23,[[{1,x,y},z,{2},{1,w}]],value,false}.
{23,[error],value,false}. {23,[#Ref<0.5>],value,false}.
{24,[a],value,false}. {24,[2],value,false}. {24,[#{a=>1,b=>2}],value,false}. {24,[[1|2]],value,false}.
{24,[true],value,false}. {24,[[1]],value,false}. {24,[4611686018427387904],value,false}.
{24,[fun erlang:abs/1],value,false}. {24,[#Pid<0.1>],value,false}. {24,[[]],value,false}.
{24,[fun m:f/0],value,false}. {24,[[50,51]],value,false}. {24,[-64],value,false}. {24,[#{a=>1}],value,false}.
{24,[#Ref<0.0>],value,false}. {24,[[43,55]],value,false}.
{25,[a],value,false}. {25,[2],value,false}. {25,[#{}],value,false}. {25,[{a}],value,false}. {25,[255],value,false}.
{25,[fun erlang:abs/1],value,false}. {25,[fun lists:reverse/2],value,false}. {25,[-64],value,false}.
{25,[[50,51]],value,false}. {25,[[1]],value,false}. {25,[true],value,false}. {25,[[[1],[2,[3]]]],value,false}.
{25,[#{a=>2,b=>1}],value,false}. {25,[{2,1}],value,false}. {25,[[true,false]],value,false}.
{25,[[a,b|c]],value,false}.";

/// Rows of the order of two terms, numbered 0.
pub(crate) const ORDER: &str =
    "{0,[{fun lists:reverse/2,{2,1}},{7,{2,1}}],value,greater}. {0,[-1,0],value,less}. {0,[[],{a,1}],value,greater}.
{0,[-1,[49,97]],value,less}. {0,[fun lists:reverse/2,1],value,greater}.
{0,[[1,2,3],fun erlang:abs/1],value,greater}. {0,[fun m:f/0,[a,b|c]],value,less}.
{0,[{#Pid<1.0>,''},{#{a=>1},''}],value,less}. {0,[#{0=>1,[3,1,2,1]=>0},#{0=>[3,1,2,1],b=>1}],value,greater}.
{0,[fun lists:reverse/2,#{a=>1}],value,less}. {0,[[43,55],[a,b|c]],value,less}. {0,[true,#{a=>2,b=>1}],value,less}.
{0,[4611686018427387904,[1]],value,less}. {0,[#{0=>1,{a,1}=>[1,2]},#{-64=>1,[1,2]=>{a,1}}],value,greater}.
{0,[4611686018427387904,#{1=>a,a=>2}],value,less}.
{0,[[[[1],[2,[3]]],#Ref<0.5>],[[[1],[2,[3]]],[50,51]]],value,less}. {0,[-1,{2,1}],value,less}.
{0,[{[[1],[2,[3]]],[1|2]},{{},[1|2]}],value,greater}. {0,[[43,55],64],value,greater}.
{0,[{-1,#Pid<0.0>},{#{a=>1},#Pid<0.0>}],value,less}.
{0,[[{false,a},{-1,a}],[{false,a},[{a,1},{b,2},{a,3}]]],value,less}.
{0,[#{0=>1,[1,2]=>[1,2,3]},#{[1,2,3]=>[1,2],[{1,x,y},z,{2},{1,w}]=>1}],value,less}.
{0,[fun m:f/0,#Pid<0.1>],value,less}.
{0,[#{0=>1,[{1,x,y},z,{2},{1,w}]=>7},#{7=>[{1,x,y},z,{2},{1,w}],#Pid<0.1>=>1}],value,less}.
{0,[b,[3,1,2,1]],value,less}. {0,[[[[1],[2,[3]]],63],[[[1],[2,[3]]],[3,1,2,1]]],value,less}.
{0,[#{0=>1,64=>64},#{64=>64,[3,1,2,1]=>1}],value,less}. {0,[[43,55],[]],value,greater}. {0,[7,[1]],value,less}.
{0,[-7,2],value,less}. {0,[[[3,1,2,1],[43,55]],[[3,1,2,1],false]],value,greater}.
{0,[false,[{1,x,y},z,{2},{1,w}]],value,less}. {0,[#{-7=>#Pid<0.0>,0=>1},#{b=>1,#Pid<0.0>=>-7}],value,less}.
{0,[{a},9223372036854775807],value,greater}. {0,[#{0=>1,[1,2]=>[]},#{4611686018427387904=>1,[]=>[1,2]}],value,less}.
{0,[[error,{a}],[error,4611686018427387904]],value,greater}.
{0,[[fun lists:reverse/2,{}],[fun lists:reverse/2,{2,1}]],value,less}. {0,[[2,#Pid<1.0>],[2,-1]],value,greater}.
{0,[[#{1=>a,a=>2},#Pid<0.0>],[#{1=>a,a=>2},a]],value,greater}. {0,[{#{b=>1},2},{fun m:f/0,2}],value,greater}.
{0,[{-9223372036854775808,63},{a,63}],value,less}. {0,[[{a,1},{b,2},{a,3}],-9223372036854775808],value,greater}.
{0,['',{1,a}],value,less}. {0,[fun m:f/0,[1|2]],value,less}. {0,[#{0=>1,[]=>3},#{3=>[],[3,1,2,1]=>1}],value,less}.
{0,[[a,b|c],fun lists:reverse/2],value,greater}.
{0,[#{0=>1,[[1,2,3],[3,1,2,1]]=>[[1,2,3],255]},#{fun m:f/0=>1,[[1,2,3],255]=>[[1,2,3],[3,1,2,1]]}],value,less}.
{0,[#Pid<0.0>,4611686018427387904],value,greater}. {0,[[3,1,2,1],error],value,greater}.
{0,[{'A b',[a,b|c]},{{a},[a,b|c]}],value,less}. {0,[{2,1},#Pid<0.1>],value,greater}.
{0,[{-1,-9223372036854775808},{{},-9223372036854775808}],value,less}.
{0,[9223372036854775806,fun erlang:abs/1],value,less}.
{0,[#{},[57,57,57,57,57,57,57,57,57,57,57,57,57,57,57,57,57,57,57,57]],value,less}.
{0,[#{0=>1,#{1=>a,a=>2}=>{a}},#{{}=>1,{a}=>#{1=>a,a=>2}}],value,less}.
{0,[#{0=>1,{7,[1,2]}=>{true,[1,2]}},#{{true,[1,2]}=>{7,[1,2]},[true,false]=>1}],value,less}.
{0,[{0,2},{#Pid<0.0>,2}],value,less}. {0,[[1,2,3],{a,b,c}],value,greater}.
{0,[{#Pid<1.0>,{a,b,c}},{#Ref<0.0>,{a,b,c}}],value,greater}. {0,[{2,1},#{a=>2,b=>1}],value,less}.
{0,[[[1|2],9223372036854775807],[[1|2],[[1],[2,[3]]]]],value,less}. {0,[{0,#{b=>1}},{[45,49],#{b=>1}}],value,less}.
{0,[#{0=>1,255=>-1},#{-1=>255,#{a=>1,b=>2}=>1}],value,greater}. {0,[-1,9223372036854775807],value,less}.
{0,[{-9223372036854775808,[1,2,3]},{-7,[1,2,3]}],value,less}. {0,[[1,2],fun erlang:abs/1],value,greater}.
{0,[[7,[1,2]],[7,#{}]],value,greater}. {0,[{{a,1},[49,97]},{[45,49],[49,97]}],value,less}.
{0,[{[],-64},{9223372036854775807,-64}],value,greater}. {0,[#{b=>1},255],value,greater}. {0,[-64,1],value,less}.
{0,[#{0=>1,{9223372036854775807,a}=>{[43,55],a}},#{{1,a}=>1,{[43,55],a}=>{9223372036854775807,a}}],value,less}.
{0,[-64,[43,55]],value,less}. {0,[63,[true,false]],value,less}. {0,[3,[1,2,3]],value,less}.
{0,[error,fun m:f/0],value,less}.
{0,[[{{2,1},[a,b|c]},{[[1],[2,[3]]],[a,b|c]}],[{{2,1},[a,b|c]},{a,b,c}]],value,less}.
{0,[#{0=>1,{1,a}=>1},#{1=>{1,a},fun erlang:abs/1=>1}],value,less}.
{0,[{fun lists:reverse/2,{a}},{[1,2],{a}}],value,less}. {0,[0,[50,51]],value,less}. {0,[0,[]],value,less}.
{0,[{{a,1},#Pid<0.0>},{2,#Pid<0.0>}],value,greater}. {0,[64,255],value,less}.
{0,[#{0=>1,#{}=>#{}},#{-64=>1,#{}=>#{}}],value,greater}. {0,[error,[43,55]],value,less}.
{0,[[-7,#Ref<0.5>],[-7,64]],value,greater}. {0,[{{a,b,c},#Pid<1.0>},{#Pid<0.0>,#Pid<1.0>}],value,greater}.
{0,[#Pid<0.0>,{2,1}],value,less}. {0,[b,#{}],value,less}.
{0,[#{0=>1,{#Ref<0.5>,{2,1}}=>{[45,49],{2,1}}},#{{[45,49],{2,1}}=>{#Ref<0.5>,{2,1}},[[1],[2,[3]]]=>1}],value,less}.
{0,[#{0=>1,{63,63}=>{'A b',63}},#{false=>1,{'A b',63}=>{63,63}}],value,less}.
{0,[fun erlang:abs/1,{2,1}],value,less}. {0,[{a},2],value,greater}.
{0,[4611686018427387904,-9223372036854775808],value,greater}. {0,[{true,#Pid<1.0>},{-1,#Pid<1.0>}],value,greater}.
{0,[#Ref<0.0>,a],value,greater}. {0,[[63,-1],[63,'A b']],value,less}. {0,[fun m:f/0,[1,2,3]],value,less}.
{0,[#{a=>1},fun m:f/0],value,greater}. {0,[{#{a=>1,b=>2},[45,49]},{a,[45,49]}],value,greater}.
{0,[{a,error},{255,error}],value,greater}. {0,[[#Pid<0.1>,'A b'],[#Pid<0.1>,[3,1,2,1]]],value,less}.
{0,[#{1=>a,a=>2},[1,2,3]],value,less}. {0,[{1,fun erlang:abs/1},{#{a=>1},fun erlang:abs/1}],value,less}.
{0,[{[1,2],fun erlang:abs/1},{'A b',fun erlang:abs/1}],value,greater}.
{0,[9223372036854775806,fun lists:reverse/2],value,less}.
{0,[[#Ref<0.0>,#{a=>2,b=>1}],[#Ref<0.0>,[49,97]]],value,less}. {0,[{#Pid<0.1>,3},{false,3}],value,greater}.
{0,[{9223372036854775807,-9223372036854775808},{[50,51],-9223372036854775808}],value,less}.
{0,[[[],-7],[[],4611686018427387904]],value,less}. {0,[9223372036854775806,error],value,less}.
{0,[[1,2,3],[]],value,greater}. {0,[{2,fun erlang:abs/1},{[3,1,2,1],fun erlang:abs/1}],value,less}.
{0,[[{a,1},{b,2},{a,3}],64],value,greater}.
{0,[{{1,a},{2,1}},{[57,57,57,57,57,57,57,57,57,57,57,57,57,57,57,57,57,57,57,57],{2,1}}],value,less}.
{0,[false,fun m:f/0],value,less}.
{0,[{64,4611686018427387904},{fun lists:reverse/2,4611686018427387904}],value,less}. {0,[a,[1|2]],value,less}.
{0,[0,2],value,less}. {0,[{{1,a},1},{[1|2],1}],value,less}.
{0,[{9223372036854775806,false},{63,false}],value,greater}. {0,[{2,[1,2,3]},{{1,a},[1,2,3]}],value,less}.
{0,[#Pid<1.0>,[{a,1},{b,2},{a,3}]],value,less}.
{0,[#{0=>1,{[a,b|c],b}=>{[1|2],b}},#{{[1|2],b}=>{[a,b|c],b},[[1],[2,[3]]]=>1}],value,less}.
{0,[{1,a},{a,b,c}],value,less}. {0,[fun erlang:abs/1,#Pid<0.1>],value,less}. {0,[[1],-1],value,greater}.
{0,[-64,false],value,less}. {0,[{[{1,x,y},z,{2},{1,w}],#{a=>1}},{error,#{a=>1}}],value,greater}.
{0,[{-7,a},{fun lists:reverse/2,a}],value,less}. {0,[error,fun erlang:abs/1],value,less}.
{0,[{[true,false],true},{#{a=>2,b=>1},true}],value,greater}.
{0,[#{0=>1,{2,1}=>0},#{0=>{2,1},[true,false]=>1}],value,less}. {0,[[{a,1},{b,2},{a,3}],{2,1}],value,greater}.
{0,[{-7,1},{[1,2,3],1}],value,less}. {0,[1,[1,2,3]],value,less}.
{0,[{false,#Ref<0.0>},{#Pid<0.0>,#Ref<0.0>}],value,less}.
{0,[[4611686018427387904,[49,97]],[4611686018427387904,false]],value,greater}.
{0,[{{a,b,c},error},{[50,51],error}],value,less}. {0,[3,#Pid<1.0>],value,less}. {0,[#{a=>2,b=>1},-7],value,greater}.
{0,[#{0=>1,#Pid<0.0>=>''},#{''=>#Pid<0.0>,{1,a}=>1}],value,less}. {0,[[1,2],63],value,greater}.
{0,[9223372036854775806,-7],value,greater}. {0,[#{b=>1},{2,1}],value,greater}. {0,[#{},#{a=>1,b=>2}],value,less}.
{0,[-64,[a,b|c]],value,less}. {0,[[a,true],[a,255]],value,greater}.
{0,[{fun m:f/0,{1,a}},{[a,b|c],{1,a}}],value,less}. {0,[true,a],value,greater}.";
