//! Worked patterns and their faults.

use crate::made::term_of;
use rx_parse::{RxFault, parse};
use std::alloc::Global;
use std::test::Fail;

/// What a text spells, in one word, and a number: the size of its term, the offset of its fault or its positions.
fn verdict_of(alloc: Global, text: &[u8]) -> (&'static str, u64) {
    if text.len() > 512 {
        return ("long", 0);
    }
    match parse(alloc, text) {
        Ok(term) => ("term", term.size()),
        Err(RxFault::Syntax { at }) => ("syntax", at as u64),
        Err(RxFault::NotInSubset { at }) => ("outside", at as u64),
        Err(RxFault::TooLarge { positions }) => ("large", positions as u64),
        Err(RxFault::OutOfMemory) => ("memory", 0),
    }
}

/// Whether the row `WORD NUMBER PATTERN` says what the pattern spells.
fn row_holds(alloc: Global, row: &str) -> bool {
    let Some((word, rest)) = row.split_once(' ') else {
        return false;
    };
    let Some((number, pattern)) = rest.split_once(' ') else {
        return false;
    };
    let (told, size) = verdict_of(alloc, pattern.as_bytes());
    told == word && number.parse::<u64>() == Ok(size)
}

#[test]
fn patterns_have_their_terms_and_other_texts_their_faults(rt: HostRuntime) {
    for row in ROWS.lines() {
        assert!(rt; row_holds(rt.alloc(), row), "{row}");
    }
}

/// Whether the pattern's term is that of the text in postfix order.
fn has_term(alloc: Global, pattern: &str, text: &str) -> Result<bool, Fail> {
    let term = term_of(alloc, text)?;
    let bytes = pattern.as_bytes();
    Ok(bytes.len() <= 512 && parse(alloc, bytes).is_ok_and(|parsed| parsed.same(&term)))
}

#[test]
fn terms_are_built_as_their_patterns_say(rt: HostRuntime) -> Result<(), Fail> {
    assert!(rt; has_term(rt.alloc(), "(?i)^ab?$", "A1B|.")?);
    assert!(rt; has_term(rt.alloc(), "", "1")?);
    Ok(())
}

#[test]
fn bytes_outside_of_the_alphabet_begin_no_piece(rt: HostRuntime) {
    for byte in [0x7f, 0x80, b'\n'] {
        assert!(rt;
            verdict_of(rt.alloc(), &[b'a', byte]) == ("syntax", 1),
            "{byte}"
        );
    }
}

/// A word, a number and a pattern in each line: the size of its term, the offset of its fault or its positions.
const ROWS: &str = r#"term 5 (?i)^ab?$
term 1 []-a]
term 1 [^]]
term 1 [\[:]
term 1 [:a]
term 1 a{0}
term 7999 (a{250}){16}
term 1 ((a{255}){16}){0}
term 8001 ((a{200}){20})?
term 1 ((((a{255}){255}){255}){255}){0}
term 2 a{0,}
term 1 a{0,0}
term 1 a{00}
term 71 a{2,19}
term 509 a{255,255}
term 337 a{9,89}
term 1 (?i)
term 1 [a-]
term 1 [-a]
term 1 [a-b-]
term 1 [--]
term 1 [^^]
term 1 [^-a]
term 1 []]
term 1 [\]-a]
term 1 []-\]]
term 1 [a\-z]
term 1 [!-\[:]
term 3 |
term 5 ||
term 1 ()
term 3 (|)
term 5 a|b|
term 1 $
term 1 ^
term 1 ^$
term 19 |-&(?:\_~(]{05}))
term 1 [^\s]
term 15 (?i)((#{01,2}A.)b|(.))[*]
term 3 c[-Z-Z\(]
term 12 <|ai*i:|P
term 9 }5290
term 25 ((?:%.){1,3}!\'?)':
term 1 (?:[b\S.\?])$
term 6 /*[^.-01-A\s]1
term 10 .(?:\==+?)!
term 4 "|\s*
term 3 a[{5,}[$-]
term 6 []b]}+
term 21 &{2,4}-{3,4}
term 3 (?i)x[^\w]
term 7 .!{0,1}|;
term 8 ,+\D?
term 9 (?i)x{3,4}
term 10 \sc{3,}?
term 3 &.{1,1}
term 3 [\**d\S/-x]_
term 8 ./[)b-cA-a]+
term 5 [^^]|[\)\S+]?
term 10 ^/W{3,}
term 6 [^(.{1-Z^]+[-0-a-]
term 3 (?i).\S
term 6 [b]]+?$
term 15 \W. +c\,+
term 4 (?i)^.*?([]])
term 8 [^.-c{\]]b*\D|\d
term 17 (?:4'}|<?(<@b)?)
term 1 [}+.]
term 1 [^:*\w]
term 13 ..+(J+(<))
term 23 1|'&{3,6}?(a{0}?)
term 20 ([.-A][A-c?]*})+(?:'.)|.
term 29 b\]{5,5}?@@,{005,6}
term 21 =*\`|c([$]\:#)+D
term 3 (?:.1)
term 17 [|]+[--]??(?:\=I)+
term 1 (?i)$
term 8 .#*|F#
term 71 /{35}?_
term 26 ^\^[-]*\W]{5,6}/]{2}
term 11 ,{001,3}[^b-xA-c1-z\W]
term 3 [:[]1$
term 6 (?i).'+
term 3 '([^+^])
term 7 (?:A?){00,1}b
term 3 (?:<")
term 7 .*a.*
term 7 [/-{]{1}#&?
term 5 ((a[a\)0-[]))"
term 1 [0-1A0-b/]
term 5 [\d][\W/-cA]a
term 13 \*?a}|a{1}\!a
term 4 (?i)[^\D]+
term 24 (x.*){1,}A\w.(\*,)|(.)[{]
term 17 ("{5,6}[9-a]:)
term 6 (?i)b\D+
term 9 (?:a\D).>?
term 7 _{3}?.
term 1 (?i)/
term 6 :*<??
term 2 [^]A-[.-0&&a]*
term 8 .|:+?<$
term 9 ([^b-c[]bx|([-\s0-z])?)
term 18 (?i).+(.{2,}.)(?:..)*
term 6 \`(>)\.*
term 3 :{2,2}
term 26 (?:/"!){3,}|.
term 17 c{001,2}[9-z/-c}-]{2}b.?.
term 1 [a.^0-1]$
term 20 (?:,]|]{3,}\d{2,3})
term 5 (?i)\{D[^Z]
term 1 (?i)'
term 5 (?i)(?:a|)|p
term 7 \]d~i
term 4 [1-1]*1
term 5 |[^b-z/-z]|.{0}?
term 8 >+a[^/-Z+b-z-]
term 3 (?i)\D.
term 1 [^1-c]
term 2 [[&&^1-Z]*
term 18 ^}<[^-0-z]|()l|b+"A
term 7 (?:[^\%0-Z])(.,)\~
term 5 ,[^\d];
term 8 (?i)[^/$];{0,1}.*$
term 24 (?i)._(?:.[[]*?){3,}
term 10 1+>[+^+:]{1,1}|!
term 9 |(.b).?
term 4 (?i)\D[^Z]*
term 3 #{001}S
term 7 (?i)-|\/'.
term 8 (>)[^]/-9/-A.-z] +
term 14 b{2,}[{3,2}^]\D].
term 5 [-\S]?t
term 15 .[\d]{01,3}?|a??
term 3 (?i)a??
term 6 (?i)\).+
term 3 ;|[]/-Z(]
term 5 (?i) {03,3}
term 7 b'|<[A-x/A-[b]
term 14 \<|(?:\d|..)+
term 6 g-*?b
term 4 (?i)[^a]+
term 7 x{2,3}?$
term 23 [^1-Z(]{5,8}x
term 7 [**]*?[c*1]*?[\"]
term 13 .(?:.!*)\!.*.$
syntax 2 (a
syntax 2 a**
syntax 2 a$b
syntax 0 {
syntax 5 a{1,}{2}
syntax 4 a{26
syntax 6 a{25,2
syntax 5 a{3,2
syntax 5 a{9,8
syntax 6 a{99,9
syntax 2 (?
syntax 3 (?:
syntax 3 (?i
syntax 3 (?:?i)
syntax 1 \
syntax 1 [
syntax 2 [^
syntax 2 [\
syntax 4 [a-\
syntax 3 [a-
syntax 2 []
syntax 5 [a-b-c]
syntax 3 [--a]
syntax 3 [---]
syntax 3 [b-a]
syntax 4 [\d-a]
syntax 0 *
syntax 2 a|*
syntax 1 (*)
syntax 0 )
syntax 1 a)
syntax 1 ^*
syntax 2 a$*
syntax 3 a???
syntax 3 a+?+
syntax 5 a{2}?{3}
syntax 5 a{2}??
syntax 6 \@.A+(
syntax 21 /{0,}?[0*-b/-1Z-z]|%*{3,}.
syntax 0 ?\W"b+
syntax 4 z+(?
syntax 5 a[2z6
syntax 7 ia:(ii(*:|(i|
syntax 5 22\*$0]z?~36| -
syntax 0 ?i)\S?$
syntax 7 (?i)_W**{2,}
syntax 5 23{93
syntax 8 [*[a[2)?
syntax 0 {,3}^/_#|b
syntax 5 :{1,2
syntax 0 ?i36+._$-,)]}$
syntax 7 z[[z:[z
syntax 13 ^:--zz\]-z[a[
syntax 14 (?:x).(?:)(.)|)|c|\,
syntax 0 ???aPi
syntax 0 )[x-z]o
syntax 1 ({1?i)[^a-c]
syntax 0 )-
syntax 6 ^|[/-x
syntax 5 1[^][
syntax 1 (
syntax 2 6$-d5193\+~6
syntax 0 ?[[a$
syntax 0 {*bi67Z{6
syntax 0 {,3}^A
syntax 8 [b-b\s](
syntax 12 (?:]{2,5}:{1
syntax 7 P|<Pai|)*
syntax 2 [[
syntax 3 \>(
syntax 0 *P**)?*<
syntax 0 {1(_*
syntax 0 ?|\4-6
syntax 10 -a:[\[\]:a
syntax 6 (?i)[^
syntax 26 ^"(|\w+a[,)((]#.|..+>)*(?:
syntax 20 ((.|.[\%,*]A)[?-])*?+$
syntax 14 (?::*[1-Z]&??|
syntax 3 -{5
syntax 4 ]][-
syntax 0 +dad+b,[z
syntax 6 0Z]5(w
syntax 12 -*\^+1]*}]?$)
syntax 18 ^b*.+:|((?:.{00,}.
syntax 1 ])b-+()]a?,
syntax 18 _{002,}c,\/?[-\w[1
syntax 0 )(PP(|
syntax 2 [z
syntax 7 (?i)[^a
syntax 13 .ib-id*i(|9,+
syntax 8 (?i)\\z(
syntax 5 Pa:(|
syntax 14 (a*)[\|1-[]|<{
syntax 7 (!?){3,
syntax 9 (.).\%[z-a]{1,}
syntax 12 \~{2,}&[a-z-9]{256}?
syntax 4 [\d-z];|e$
syntax 3 >+$)*("\w.*)
syntax 10 1}}}a]*bb|*]}\^
syntax 5 |[\d-z]|(?i[^,][A-b1?+]
syntax 5 :{5,8
syntax 14 (?i)\{2}{3}D[^
syntax 8 Y??[c&&-
syntax 8 (?i)[^\D
syntax 6 .*[?.a
syntax 0 +[|a\!]x
syntax 5 "{2,}{,3}!{02,
syntax 8 [$-^a-]a)
syntax 5 [^]x'
syntax 7 ,95,29{
syntax 8 (?i)[^a+
syntax 7 ||(8).({3,3}
syntax 7 :PP?iP:))?i(a?
syntax 26 ..{02}:|=a\|b([^]#.{141}%)
syntax 6 [([\d-z])[]
syntax 7 .{3,4}?{256}-
syntax 11 [^:]p{2,3}[
syntax 2 @$\n
syntax 8 [-z:[][:
syntax 0 +|))
syntax 4 ^],(*}|}2
syntax 1 $[b22*$
syntax 11 ,2191,2,{1,
syntax 1 a)|(<?
syntax 9 [\d{256}-z]\s?
syntax 0 )a:(
syntax 5 [?\{/
syntax 5 [z[a[
syntax 10 c*?[**:a]**
syntax 2 (|?i)<
syntax 0 )a<ai
syntax 3 a[+
syntax 3 ((?
syntax 1 (*PP:*<i??)
syntax 0 {0399}02{}{{aa
syntax 0 +
syntax 14 -[^](,.|\\<]" )+1*
syntax 3 (.***).[^{-]
syntax 3 (b-
syntax 3 [:$
syntax 0 ?<<<<a*i|i<(P?a
syntax 13  \{0256}[(?i+
syntax 3 ]B{
syntax 12 [a$]['|:-? $
syntax 7 [:][:*#
syntax 8 ,55211,{
syntax 3 (\\
outside 1 \b
outside 5 a{3,2}
outside 4 a{256}
outside 1 a^b
outside 2 (?x
outside 3 a(?i)
outside 2 [[:]
outside 3 [a[:]
outside 4 [!-[:]
outside 5 a{0000}
outside 6 a{1,0001}
outside 6 a{200,199}
outside 5 a{2,1}
outside 6 a{100,99}
outside 8 a{255,256}
outside 2 a{,3}
outside 6 (?i)(?i)
outside 5 (?i)^^
outside 3 ^(?i)
outside 3 ((?i)a)
outside 4 [a-\d]
outside 4 [a-\-]
outside 1 $$
outside 2 (a$)
outside 1 (^a)
outside 2 (?="[)):0
outside 2 ^z^]a:[\]-
outside 6 [:aza\a-az-z]
outside 3 .{0\b,1}|"{5,8}.q{0,}|
outside 6 b+||(?#[,][.-.]$
outside 4 2ba{,)
outside 2 (\x41?i)-*
outside 3 39{,{}52}2559{2
outside 6 ('+((?i\S*\d?)|[/{0,1}?)_
outside 9 ^(<A]{1,1\x41)[^.-b]{1}$
outside 16 ^}(:[\[]:)|.+x(?P<n>
outside 4 ]|2\a[b)\b1,11
outside 1 (^]*[].)%
outside 1 a^a--]a[:
outside 9 ((.)){0256}[9-a\s]{3,2}
outside 4 .+(?P<n>.{135}${
outside 7 a(/){2,{12}[\S\S/-
outside 2 9{a33022aa3
outside 3 :(?i)[a\S+.-
outside 7 [^\Sc-\1x\1[-c[]
outside 3 (?i{2}{3}).
outside 2 A\A
outside 2 }{,3}\A
outside 2 (\Q?i)\D[^Z]*
outside 4 ^\w{,}[z-a]?
outside 3 ^x\b[]
outside 3 Ai\2\3*:91259i
outside 1 -^1[a\+]
outside 3 (>\1\W)+?
outside 5 _[^(]^*$
outside 11 .{005,6}&?\Q
outside 9 ]([\wx-z\Ab-z]&)
outside 20 (?:/7+?[*.-A?]+?=\S)^*_*
outside 3 '{1[9-Z\d]{1,}*$
outside 3 @{1^,2}c
outside 1 \b{001,}(\S)a
outside 6 (?i)\[^Z]*
outside 5 .S\#\12,4}
outside 4 (}(?i)}=.(?:x)|!|@[*]
outside 11 ^([A-])|'(.$)
outside 2 x{\11,}
outside 8 ,|&/c{256}
outside 4 ,1}{?b[-,a*\b*
outside 9 :\S?|[a-\d].}
outside 2 (?(?ii
outside 4 291{,}02352230
outside 6 ^F[\[[:lpha:]]D-]+}$
outside 1 \bA!
outside 10 V{0,};a|(?#'
outside 17 (a[-+]{5,6}a?)* \b*
outside 4 A{1,.
outside 7 ^\&{02,(?#{0256}}>
outside 21 ...|(.\>){3,}?[^\s*a[:]
outside 10 ,01a009{92391
outside 3 .(?.+?
outside 7 92500a{,9020}
outside 3 \D\x4{11$
outside 4 a{23{{}232a2
outside 3 1{1)}|/}[^Z-x]{2}|(#
outside 6 \]a]-a^[
outside 9 (?i)[A-b]^
outside 13 -+?|,.{5,6}(?)
outside 3 ^(?i
outside 6 ^\/a+\x41
outside 1 -^\z]^:a\[]z[]\
outside 10 (?i)#+?c*\n?
outside 1 \z\[\:\z
outside 4 2}a{a321,,90
outside 3 .(?=*
outside 6 [^[a-\d]b\W^1-z]{1}@
outside 2 (!$
outside 5 "{5,6$}.?
outside 1 \b!$
outside 5 ^xA{1{2}{3},}
outside 1 \z
outside 5 }{2,3?$
outside 5 z-:z]^]
outside 2 (?P<(?P<n>n>\/
outside 11 a}2205015{2a
outside 3 -za^zaaz:\]]]
outside 11 (?i)=+%[1/\x41:]=?\Qb
outside 6 (\W[-\n).]!{
outside 8 (?i).{1,a*
outside 4 z:-:^-[]z\:
outside 11 _|c{002}?[\Q-^.-z\~]
outside 3 \[a^^\\[az^\za
outside 12 %b{1,2}?[a-\d]
outside 8 [-*$]+(?{,3}:([\.][.-/])|
outside 3 (?i[:)-[
outside 4 ((.\x41).??\n)$
outside 3 (?i+{2}{3})(')
outside 6 ,\$d{4.1|A
outside 2 (?)_a*
outside 5 ()[-\Q]$
outside 5 .{5,5\Q}[a-b\'Z-x/-A]|
outside 13 aazaz[]]:][[\a:
outside 2 (?=*
outside 2 x\b
outside 2 (?%
outside 7 ^:a{0256}{2,3}
outside 5 .{0,3[^]}.
outside 6 /;+ (?=
outside 3 x(?\n:%[9-x/-1[-] {){0}
outside 3 (?i\A)\S(?:[]]\<)
outside 4 x?(?P<n>?{1
outside 3 (?i\1)(.{0,2}}).)[^]/1]$
outside 6 Zi4Z9$^1\]2,A
outside 3 (?i(?=)c*a
outside 11 [.?1-z/].{0[0,\b}Q*
outside 10 \(]|]2\|]{-
large 4080 (a{255}){16}
large 8000 (?:(?:a{200}){20})+
large 4001 ((a{200}){20}b)*
large 65025 (a{255}){255}
large 16581375 ((a{255}){255}){255}
large 4228250625 (((a{255}){255}){255}){255}"#;
